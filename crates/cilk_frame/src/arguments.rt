//! The values that a body starts with, or that a spawn keeps for its inlet.

ghost use Rattle.std.specs.Prelude.{◌≡◌, Decides, IfOk};

use cilk_load_nodes::Memory;
use std::marker::Model;

/// The values that a spawn keeps for an inlet's parameters behind the first, from left to right.
/// Contracts see a list.
#[derive(Debug)]
pub struct Arguments {
    values: Vec<i32>,
}

// To drop it elsewhere is to call this, and its parts' drops are proved here alone.
impl Drop for Arguments {
    fn drop(self) {
        let Arguments { values: _values } = self;
    }
}

impl Model for Arguments {
    ghost use Rattle.std.specs.Prelude.{ℤ, List};

    ghost Value = { List ℤ };

    ghost view = { λ a. a.values.items };
}

impl Arguments {
    /// These values.
    pub fn new(values: Vec<i32>) -> Arguments
        ensures { result ≡ values.items }
    {
        Arguments { values }
    }

    /// The values, from left to right.
    pub fn as_slice(&self) -> &[i32]
        ensures { result.now ≡ self.now }
    {
        self.values.as_slice()
    }

    /// Whether the others are as many, each the same.
    pub fn same(&self, other: &Arguments) -> bool
        ensures { Decides result (self.now ≡ other.now) }
    {
        self.as_slice() == other.as_slice()
    }

    /// As many values, each the same.
    pub fn copy(&self) -> Result<Arguments, Memory>
        ensures { IfOk result (λ arguments. arguments ≡ self.now) }
    {
        let alloc = *self.values.allocator();
        Ok(Arguments::new(Vec::from_slice(alloc, self.as_slice())?))
    }
}
