//! What is wrong with a schedule that cannot be replayed: its program, its workers or its first bad choice; or want of memory.

use cilk_machine::Refusal;
use thiserror::Error;

/// Why choices cannot be made again. What `Display` writes is for who uses this crate, and no clause speaks of it: the program's lines are those of
/// `tell_replay` of `cilk_program_tapes`.
#[derive(Debug, Drop, Error)]
pub enum ReplayFault {
    /// The schedule tells that it is of another program.
    #[error("G5 OtherProgram")]
    OtherProgram,
    /// The number of workers is not one of 1 to 64.
    #[error("B0 Workers")]
    Workers,
    /// The choice of this number, counted from 1, is the first that is not possible, for this reason.
    #[error("B1 BadChoice {0} {1}")]
    BadChoice(u64, Refusal),
    /// Memory has run out.
    #[error("out of memory")]
    Memory,
}
