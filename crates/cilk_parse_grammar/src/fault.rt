//! Why tokens could not be read.

ghost use Rattle.std.specs.Prelude.{◌≡◌};
ghost use Rattle.cilk_parse_grammar.specs.declared.fault.ReadError.TheVariants.{Memory};

use std::alloc::{AllocError, AllocFailed};

/// The first fault from left to right, with the number of tokens that are left from there on.
#[derive(Clone, Copy, PartialEq, Eq)]
pub enum Fault {
    /// Nothing that the rules say begins with the tokens through this one.
    Unexpected(usize),
    /// Nothing that they say within the limits of nesting begins with the tokens through this one.
    TooDeep(usize),
}

/// Why something was not read.
#[derive(Clone, Copy, PartialEq, Eq)]
pub enum ReadError {
    /// Memory has run out.
    Memory,
    /// The tokens are at fault.
    Fault(Fault),
}

impl From<AllocError> for ReadError {
    ghost from_gives = { λ _ e. e ≡ Memory };

    fn from(_e: AllocError) -> ReadError {
        ReadError::Memory
    }
}

impl<T: Drop> From<AllocFailed<T>> for ReadError {
    ghost from_gives = { λ _ e. e ≡ Memory };

    fn from(_e: AllocFailed<T>) -> ReadError {
        ReadError::Memory
    }
}
