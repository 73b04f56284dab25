//! `Run`, which tells of a whole run its end, log, output and turns, and `RunFault`, why there is none.

use crate::run_lists::{ChoiceCounts, Output};
use cilk_run_locked::{End, Log};

/// A run that ended, was stuck, or came to its limit.
#[derive(Debug, Drop)]
pub struct Run {
    /// How the program stands at the end.
    pub end: End,
    /// The choices, in the order in which the workers had the lock; it names the program.
    pub log: Log,
    /// What the program printed.
    pub output: Output,
    /// How many choices each worker made.
    pub turns: ChoiceCounts,
}

/// Why there is no run.
#[derive(Clone, Copy, PartialEq, Eq, Debug)]
pub enum RunFault {
    /// The number of workers is not one of 1 to 64.
    Workers,
    /// The system started no thread for one of the workers. All that were started have ended.
    Start,
    /// Memory has run out.
    Memory,
}
