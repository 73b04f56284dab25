//! What the worker of a choice does: a step, a pop or a steal.

/// What a worker does.
#[derive(Clone, Copy, Debug, PartialEq, Eq)]
pub enum Act {
    /// One step of the instance in its hand.
    Step,
    /// The bottom of its own deque comes to its hand.
    Pop,
    /// The top of the deque of another worker comes to its hand.
    Steal(u8),
}
