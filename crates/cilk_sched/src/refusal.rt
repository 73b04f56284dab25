//! The reasons for which a choice is refused, in the order in which they are looked for, and that a proposal is stale.

use thiserror::Error;

/// Why a choice was not made: the first reason that applies, and want of memory last. `Stale` is none of a choice, but of what was seen beforehand.
/// What `Display` writes is for who uses this crate, and no clause speaks of it: the program writes the code alone, by `code_of` of `cilk_program_runs`.
#[derive(Clone, Copy, Debug, PartialEq, Eq, Error)]
pub enum Refusal {
    /// The program has ended.
    #[error("M1 Over")]
    Over,
    /// There is no such worker or victim, or the victim is the worker.
    #[error("M2 NoWorker")]
    NoWorker,
    /// The worker's hand is empty at a step.
    #[error("M3 HandEmpty")]
    HandEmpty,
    /// The worker's hand is full, or at a steal its own deque is not empty.
    #[error("M4 Busy")]
    Busy,
    /// Nothing to pop or to steal.
    #[error("M5 DequeEmpty")]
    DequeEmpty,
    /// The step has to wait for a lock.
    #[error("M6 Waiting")]
    Waiting,
    /// Memory has run out.
    #[error("M7 Memory")]
    Memory,
    /// What was seen of the step is no longer so.
    #[error("M8 Stale")]
    Stale,
}
