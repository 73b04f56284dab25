//! A column of a picture: one choice, or several of one worker that touch nothing shared.

use cilk_log_replay::Choice;

/// One choice of a schedule, or several that follow one another.
pub struct Column {
    /// The number of its first choice, counted from 1.
    pub first: u64,
    /// How many choices it has. All are steps of one worker where it has several.
    pub count: u64,
    pub choice: Choice,
    /// The path of the instance that the worker has in its hand: before a step, and behind a pop or a steal.
    pub instance: String,
    /// The line of the text on which the action of its first step stands; 0 where there is none.
    pub line: u32,
    /// What was done, with the value.
    pub caption: String,
    /// Whether it touches nothing that other instances see.
    pub is_private: bool,
}

impl Drop for Column {
    fn drop(self) {
        let Column {
            first: _,
            count: _,
            choice: _,
            instance: _instance,
            line: _,
            caption: _caption,
            is_private: _,
        } = self;
    }
}

impl Column {
    /// The number of its last choice.
    pub(crate) fn last(&self) -> u64 {
        self.first.saturating_add(self.count.saturating_sub(1))
    }

    /// Whether the choice of a number is one of its.
    pub(crate) fn has(&self, choice: u64) -> bool {
        self.first <= choice && choice <= self.last()
    }

    /// The lane of its worker, counted from 0.
    pub(crate) fn lane(&self) -> u64 {
        u64::from(self.choice.worker.saturating_sub(1))
    }
}
