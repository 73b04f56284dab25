//! What a choice touches that is not made yet.

use cilk_log_replay::Access;

/// The cells that the step of a choice reads and writes. A pop or a steal touches none.
#[derive(Drop)]
pub(crate) struct Look {
    /// The instance in the hand of the worker.
    pub own: usize,
    pub accesses: Vec<Access>,
    /// The locks that are held meanwhile.
    pub locks: Vec<usize>,
    /// The body of the instance's procedure.
    pub procedure: u32,
}
