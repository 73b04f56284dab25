//! The faults for which a text spells no program, with the place of each.

ghost use Rattle.std.specs.Prelude.{◌≡◌};
ghost use Rattle.cilk_parse.specs.FaultPlace.{place_of};

use cilk_lex::LexFault;
use thiserror::Error;

/// Why a text was not read as a program.
#[derive(Clone, Copy, Debug, PartialEq, Eq, Error)]
pub enum ReadFault {
    /// The text has no tokens.
    #[error("{0}")]
    Lex(LexFault),
    /// No program goes through the token at this place, or, at the end of the text, it is no whole program.
    #[error("P2 Unexpected")]
    Unexpected(u32),
    /// No program within the limits of nesting goes through the token at this place.
    #[error("P3 TooDeep")]
    TooDeep(u32),
    /// Memory has run out.
    #[error("out of memory")]
    Memory,
}

impl ReadFault {
    /// The place of the fault in the text, in bytes from 0; 0 where memory has run out.
    pub fn place(&self) -> u32
        ensures { result ≡ place_of self.now }
    {
        match self {
            ReadFault::Lex(fault) => fault.place(),
            ReadFault::Unexpected(at) | ReadFault::TooDeep(at) => *at,
            ReadFault::Memory => 0,
        }
    }
}
