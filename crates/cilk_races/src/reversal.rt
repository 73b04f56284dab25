//! A schedule that takes two accesses of a run in the other order.

use cilk_log_replay::End;

/// How such a schedule ends.
#[derive(Drop)]
pub(crate) struct Reversal {
    pub end: End,
    /// How many choices it has.
    pub choices: u64,
    pub workers: u8,
}
