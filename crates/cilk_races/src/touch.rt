//! Accesses of a run, with the steps that made them.

use cilk_log_replay::Access;

/// A step: its instance, and what that did before.
#[derive(Clone, Copy)]
pub struct Placed {
    /// The instance.
    pub place: usize,
    /// The child whose value the step takes, or whose inlet it is of; a thread's step has none.
    pub taking: Option<usize>,
    /// How many `sync`s the instance had passed.
    pub syncs: u64,
    /// How many children it had spawned.
    pub children: u64,
}

/// An access of a choice.
#[derive(Drop)]
pub struct Touch {
    /// The choice, counted from 1.
    pub choice: u64,
    /// The instance in the hand of the worker that steps, whose variables are seen.
    pub own: usize,
    pub placed: Placed,
    /// The number of the action.
    pub n: u32,
    pub access: Access,
    /// The locks that were held, by their numbers.
    pub locks: Vec<usize>,
    /// The body of the instance's procedure.
    pub procedure: u32,
}
