//! What may follow the named first parameter of `main`, and what both make together.

ghost use Rattle.std.specs.Prelude.{◌≡◌, MatchResult};
ghost use Rattle.cilk_parse.specs.Views.{tail_of, main_tail_of};

use crate::parameter_list::named_of;
use crate::tail::Tail;
use cilk_parse_grammar::{Block, Parameters, ReadError, Word};
use std::alloc::Global;

/// What stands behind the first parameter of `main`, where that has a name.
pub enum MainTail {
    /// The other parameters of a declaration, with the names that they have (C 1990, 6.5.4.3).
    Declares(Vec<Option<Word>>),
    /// The other parameters, all `int`, and the body (C 1990, 6.7.1).
    Defines(Vec<Option<Word>>, Block),
    /// The words of the command line, and the body (C 1990, 5.1.2.2.1).
    CommandLine(Word, Block),
}

// To drop it elsewhere is to call this, and its parts' drops are proved here alone.
impl Drop for MainTail {
    fn drop(self) {
        match self {
            MainTail::Declares(_others) => {}
            MainTail::Defines(_others, _body) => {}
            MainTail::CommandLine(_words, _body) => {}
        }
    }
}

impl MainTail {
    /// The same together with the first parameter.
    pub fn behind(self, alloc: Global, first: Word) -> Result<Tail, ReadError>
        ensures { MatchResult result (λ t. tail_of t ≡ main_tail_of self first) (λ e. e ≡ ReadError.Memory) }
    {
        match self {
            MainTail::Declares(others) => Tail::declaring(others.len() + 1),
            MainTail::Defines(others, body) => {
                let mut names = Vec::new(alloc);
                names.push(first)?;
                let mut others = named_of(alloc, others)?;
                names.append(&mut others)?;
                Ok(Tail::Defines(Parameters::Ints(names), body))
            }
            MainTail::CommandLine(strings, body) => {
                Ok(Tail::Defines(Parameters::CommandLine(first, strings), body))
            }
        }
    }
}
