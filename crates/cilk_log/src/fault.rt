//! The faults for which bytes are not read as a recorded schedule, or one has no text.

use thiserror::Error;

/// Why bytes are not the text of a recorded schedule: what is wrong first, from the top, or want of memory. A schedule has no text where it is
/// too long, or memory runs out. What `Display` writes is for who uses this crate, and no clause speaks of it: the program's lines are those of
/// `tell_log` of `cilk_program_runs`.
#[derive(Clone, Copy, Debug, PartialEq, Eq, Error)]
pub enum LogFault {
    /// The first line names no version that is known.
    #[error("G1 Version")]
    Version,
    /// This line, counted from 1, is not one that may stand there.
    #[error("G2 Line {0}")]
    Line(u64),
    /// A line is wanted, and no newline follows.
    #[error("G3 Truncated")]
    Truncated,
    /// The last line tells another number of choices than there are.
    #[error("G4 Count")]
    Count,
    /// There are more choices than a text of version 2 tells: 10,000,000.
    #[error("G6 TooMany")]
    TooMany,
    /// Memory has run out.
    #[error("out of memory")]
    Memory,
}
