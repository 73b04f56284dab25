//! The faults of the check, C1 to C17, with the place and the number of each.

ghost use Rattle.std.specs.Prelude.{◌≡◌};
ghost use Rattle.cilk_check_scopes.specs.declared.fault.CheckFault.TheVariants.{Memory};

use std::alloc::{AllocError, AllocFailed};
use thiserror::Error;

/// Why a program may not be run. Each fault but the last has its place in the text, in bytes from the beginning.
#[derive(Clone, Copy, Debug, PartialEq, Eq, Error)]
pub enum CheckFault {
    /// A scope declares a name again; the place is the later name's.
    #[error("C1 Twice")]
    Twice(u32),
    /// A name that is neither reserved nor visible is used.
    #[error("C2 Unknown")]
    Unknown(u32),
    /// A visible name is used where another kind of thing is needed.
    #[error("C3 WrongKind")]
    WrongKind(u32),
    /// A function, procedure or inlet is given another number of arguments than it has parameters; the place is the
    /// callee's.
    #[error("C4 ArgumentCount")]
    ArgumentCount(u32),
    /// The value of a `void` function or procedure is taken; the place is the callee's.
    #[error("C5 VoidValue")]
    VoidValue(u32),
    /// `spawn`, `sync` or `SYNCHED` in a C function, or an inlet that is not directly in the outermost block of a Cilk
    /// procedure; the place is the word's.
    #[error("C6 NotInProcedure")]
    NotInProcedure(u32),
    /// An inlet is called without a spawn; the place is the inlet's name.
    #[error("C7 InletNeedsSpawn")]
    InletNeedsSpawn(u32),
    /// `spawn`, `sync` or `SYNCHED` in an inlet; the place is the word's.
    #[error("C8 InInlet")]
    InInlet(u32),
    /// `abort` outside an inlet; the place is the word's.
    #[error("C9 AbortOutside")]
    AbortOutside(u32),
    /// `break` in no loop or `switch` of its body, or `continue` in no loop of it; the place is the word's.
    #[error("C10 NoLoop")]
    NoLoop(u32),
    /// Nothing defines what a prototype declares; the place is the prototype's name.
    #[error("C11 Prototype")]
    Prototype(u32),
    /// Nothing defines a `cilk int main` to start with; the place is the text's length.
    #[error("C12 NoMain")]
    NoMain(u32),
    /// A `return` has a value in a `void` body, or none in an `int` one; the place is the word's.
    #[error("C13 ReturnForm")]
    ReturnForm(u32),
    /// A format has another conversion than `%d` and `%%`, or not as many `%d` as there are arguments; the place is the
    /// text's.
    #[error("C14 Format")]
    Format(u32),
    /// An array has another length than 1 to 65,536, or a declaration passes the 4,096 cells of its activation, or the
    /// 1,048,576 of the top level; the place is the declared name.
    #[error("C15 Limit")]
    Limit(u32),
    /// A reserved name is declared or used.
    #[error("C16 Reserved")]
    Reserved(u32),
    /// A `switch` has a second label with one value, or a second `default`; the place is the word's.
    #[error("C17 Label")]
    Label(u32),
    /// Memory has run out.
    #[error("out of memory")]
    Memory,
}

impl CheckFault {
    ghost use Rattle.cilk_check_scopes.specs.Fault.{place_of, number_of};

    /// The place in the text, in bytes from its beginning. It is 0 where the fault has none.
    pub fn place(&self) -> u32
        ensures { result ≡ place_of self.now }
    {
        match self {
            CheckFault::Twice(at)
            | CheckFault::Unknown(at)
            | CheckFault::WrongKind(at)
            | CheckFault::ArgumentCount(at)
            | CheckFault::VoidValue(at)
            | CheckFault::NotInProcedure(at)
            | CheckFault::InletNeedsSpawn(at)
            | CheckFault::InInlet(at)
            | CheckFault::AbortOutside(at)
            | CheckFault::NoLoop(at)
            | CheckFault::Prototype(at)
            | CheckFault::NoMain(at)
            | CheckFault::ReturnForm(at)
            | CheckFault::Format(at)
            | CheckFault::Limit(at)
            | CheckFault::Reserved(at)
            | CheckFault::Label(at) => *at,
            CheckFault::Memory => 0,
        }
    }

    /// The number of the code that `Display` writes, or 0.
    pub fn number(&self) -> u8
        ensures { result ≡ number_of self.now }
    {
        match self {
            CheckFault::Twice(_) => 1,
            CheckFault::Unknown(_) => 2,
            CheckFault::WrongKind(_) => 3,
            CheckFault::ArgumentCount(_) => 4,
            CheckFault::VoidValue(_) => 5,
            CheckFault::NotInProcedure(_) => 6,
            CheckFault::InletNeedsSpawn(_) => 7,
            CheckFault::InInlet(_) => 8,
            CheckFault::AbortOutside(_) => 9,
            CheckFault::NoLoop(_) => 10,
            CheckFault::Prototype(_) => 11,
            CheckFault::NoMain(_) => 12,
            CheckFault::ReturnForm(_) => 13,
            CheckFault::Format(_) => 14,
            CheckFault::Limit(_) => 15,
            CheckFault::Reserved(_) => 16,
            CheckFault::Label(_) => 17,
            CheckFault::Memory => 0,
        }
    }
}

impl From<AllocError> for CheckFault {
    ghost from_gives = { λ _ f. f ≡ Memory };

    fn from(_error: AllocError) -> CheckFault {
        CheckFault::Memory
    }
}

impl<T: Drop> From<AllocFailed<T>> for CheckFault {
    ghost from_gives = { λ _ f. f ≡ Memory };

    fn from(_error: AllocFailed<T>) -> CheckFault {
        CheckFault::Memory
    }
}
