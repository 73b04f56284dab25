//! Why there is no debugger of a recorded schedule, or why one makes no move or sets no breakpoint.

ghost use Rattle.std.specs.Prelude.{◌≡◌};
ghost use Rattle.cilk_debug.specs.Faults.{debug_fault};

use cilk_log_replay::{Refusal, ReplayFault};
use thiserror::Error;

/// Why a debugger does not do what it is told. What `Display` writes is for who uses this crate, and no clause speaks of it: a session is answered by
/// `Reply`, and `cilk_program_tapes` writes the line of a schedule that cannot be replayed.
#[derive(Debug, Drop, Error)]
pub enum DebugFault {
    /// The schedule tells that it is of another program.
    #[error("G5 OtherProgram")]
    OtherProgram,
    /// The number of workers is not one of 1 to 64.
    #[error("B0 Workers")]
    Workers,
    /// The choice of this number, counted from 1, is the first that is not possible, for this reason.
    #[error("B1 BadChoice {0} {1}")]
    BadChoice(u64, Refusal),
    /// All choices were made.
    #[error("B2 AtEnd")]
    AtEnd,
    /// No choice was made yet.
    #[error("B3 AtStart")]
    AtStart,
    /// The program has no action of that number.
    #[error("B4 NoStatement")]
    NoStatement,
    /// There are fewer choices.
    #[error("B6 OutOfRange")]
    OutOfRange,
    /// Memory has run out.
    #[error("out of memory")]
    Memory,
}

/// Why there is no debugger of a schedule that cannot be replayed.
pub(crate) fn debug_fault(fault: ReplayFault) -> DebugFault
    ensures { result ≡ debug_fault fault }
{
    match fault {
        ReplayFault::OtherProgram => DebugFault::OtherProgram,
        ReplayFault::Workers => DebugFault::Workers,
        ReplayFault::BadChoice(number, refusal) => DebugFault::BadChoice(number, refusal),
        ReplayFault::Memory => DebugFault::Memory,
    }
}
