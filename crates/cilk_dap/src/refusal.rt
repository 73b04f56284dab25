//! Why a request is not done.

ghost use Rattle.std.specs.Prelude.{◌≡◌, ◌≢◌};

use cilk_debug::{DebugFault, Memory, ViewFault};
use std::alloc::AllocError;

/// All choices were made.
pub(crate) const AT_END: &str = "B2 AtEnd";

/// No choice was made yet.
pub(crate) const AT_START: &str = "B3 AtStart";

/// Nothing was launched.
pub(crate) const NO_PROGRAM: &str = "no program is launched";

/// The word of a request is not known here.
pub(crate) const NO_SUCH_REQUEST: &str = "there is no such request here";

/// No worker has this number.
pub(crate) const NO_SUCH_THREAD: &str = "there is no such thread";

/// Why what is asked is not done. Want of memory ends the exchange, and the others are told in the response.
pub(crate) enum Refusal {
    /// Memory has run out.
    Memory,
    /// These words tell why.
    Words(&'static str),
    /// This text tells why.
    Text(String),
}

// To drop it elsewhere is to call this, and its text's drop is proved here alone.
impl Drop for Refusal {
    fn drop(self) {
        match self {
            Refusal::Text(_text) => {}
            Refusal::Memory | Refusal::Words(_) => {}
        }
    }
}

impl From<AllocError> for Refusal {
    fn from(_memory: AllocError) -> Refusal
        ensures { result ≡ Refusal.Memory }
    {
        Refusal::Memory
    }
}

impl From<Memory> for Refusal {
    fn from(_memory: Memory) -> Refusal
        ensures { result ≡ Refusal.Memory }
    {
        Refusal::Memory
    }
}

impl From<ViewFault> for Refusal {
    fn from(fault: ViewFault) -> Refusal
        ensures told { fault ≡ ViewFault.NoInstance → result ≢ Refusal.Memory }
        ensures memory { fault ≢ ViewFault.NoInstance → result ≡ Refusal.Memory }
    {
        match fault {
            ViewFault::NoInstance => Refusal::Words("B5 NoInstance"),
            ViewFault::Memory(_) => Refusal::Memory,
        }
    }
}

impl From<DebugFault> for Refusal {
    fn from(fault: DebugFault) -> Refusal
        ensures told { fault ≢ DebugFault.Memory → result ≢ Refusal.Memory }
        ensures memory { fault ≡ DebugFault.Memory → result ≡ Refusal.Memory }
    {
        match fault {
            DebugFault::Memory => Refusal::Memory,
            DebugFault::AtEnd => Refusal::Words(AT_END),
            DebugFault::AtStart => Refusal::Words(AT_START),
            DebugFault::NoStatement => Refusal::Words("B4 NoStatement"),
            DebugFault::OutOfRange => Refusal::Words("B6 OutOfRange"),
            _ => Refusal::Words("the log cannot be replayed"),
        }
    }
}

/// What is told, where memory sufficed for it.
pub(crate) fn told(put: Result<(), AllocError>) -> Result<(), Refusal> {
    match put {
        Ok(()) => Ok(()),
        Err(_) => Err(Refusal::Memory),
    }
}
