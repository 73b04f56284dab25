//! Two choices of a schedule that race.

use crate::column::Column;

/// Two choices that race, by their numbers, and the variable on which they do.
pub struct Race {
    pub first: u64,
    pub second: u64,
    pub variable: String,
}

impl Drop for Race {
    fn drop(self) {
        let Race {
            first: _,
            second: _,
            variable: _variable,
        } = self;
    }
}

impl Race {
    /// Whether one of them is in a column.
    pub(crate) fn is_in(&self, column: &Column) -> bool {
        column.has(self.first) || column.has(self.second)
    }
}
