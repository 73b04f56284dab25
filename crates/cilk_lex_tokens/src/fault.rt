//! The faults for which a text has no tokens, and the place of each.

ghost use Rattle.std.specs.Prelude.{◌≡◌};
ghost use Rattle.cilk_lex_tokens.specs.declared.fault.LexFault.TheVariants.{Memory};

use std::alloc::{AllocError, AllocFailed};
use thiserror::Error;

/// Why a text has no tokens. Each fault but the first has the place of a byte.
#[derive(Clone, Copy, Debug, PartialEq, Eq, Error)]
pub enum LexFault {
    /// The text has more bytes than a program may have. Its place is 0.
    #[error("L1 TooLong")]
    TooLong,
    /// A byte with which no token begins, or one that a text literal may not hold.
    #[error("L2 BadByte")]
    BadByte(u32),
    /// A comment without an end: the place of its first byte.
    #[error("L3 OpenComment")]
    OpenComment(u32),
    /// A text literal without an end on its line: the place of its quote.
    #[error("L4 OpenText")]
    OpenText(u32),
    /// A number that is not written as one, or that is larger than 2147483647.
    #[error("L5 BadNumber")]
    BadNumber(u32),
    /// A backslash with no escape of the language: its place.
    #[error("L6 BadEscape")]
    BadEscape(u32),
    /// A `#` that begins no line which includes a header.
    #[error("L7 BadDirective")]
    BadDirective(u32),
    /// Memory has run out.
    #[error("out of memory")]
    Memory,
}

impl LexFault {
    ghost use Rattle.cilk_lex_tokens.specs.Lexeme.{place_of};

    /// The place in the text, in bytes from its beginning. It is 0 where the fault has none.
    pub fn place(&self) -> u32
        ensures { result ≡ place_of self.now }
    {
        match self {
            LexFault::BadByte(at)
            | LexFault::OpenComment(at)
            | LexFault::OpenText(at)
            | LexFault::BadNumber(at)
            | LexFault::BadEscape(at)
            | LexFault::BadDirective(at) => *at,
            LexFault::TooLong | LexFault::Memory => 0,
        }
    }
}

impl From<AllocError> for LexFault {
    ghost from_gives = { λ _ f. f ≡ Memory };

    fn from(_error: AllocError) -> LexFault {
        LexFault::Memory
    }
}

impl<T: Drop> From<AllocFailed<T>> for LexFault {
    ghost from_gives = { λ _ f. f ≡ Memory };

    fn from(_error: AllocFailed<T>) -> LexFault {
        LexFault::Memory
    }
}
