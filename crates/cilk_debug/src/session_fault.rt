//! What breaks off a session of a debugger: its input, its writer, or want of memory.

use cilk_debug_console::InputFault;
use thiserror::Error;

/// Why a session ends before its input does. What `Display` writes is for who uses this crate, and no clause speaks of it: the program's lines are those
/// of `RecordFailure` of `cilk_program_tapes`.
#[derive(Clone, Copy, Debug, PartialEq, Eq, Error)]
pub enum SessionFault {
    /// The input is at fault.
    #[error("B7 {0}")]
    Read(InputFault),
    /// The writer failed, so a part of the answer may be written.
    #[error("B8")]
    Write,
    /// Memory has run out.
    #[error("out of memory")]
    Memory,
}
