//! The numbers that are told of a run.

/// The numbers of a run.
#[derive(Drop)]
pub struct Measure {
    /// How many choices were steps that did more than to move a frame.
    pub work: u64,
    /// How many steps the longest chain has, in which each follows the one before it.
    pub span: u64,
    /// How many instances were made.
    pub instances: u64,
    /// How many lived at most at once.
    pub live: u64,
    /// How many stood at most one above another.
    pub depth: u64,
    /// How many bodies stood at most one above another, where each instance above has one.
    pub bodies: u64,
    /// How many frames were at most in one deque.
    pub deque: u64,
    pub steals: u64,
    pub pops: u64,
    /// How many steps only moved a frame.
    pub parks: u64,
    /// The work of each worker, from worker 1 on.
    pub shares: Vec<u64>,
}
