//! What a fault is told as.

ghost use Rattle.std.specs.Prelude.{◌≡◌, ◌++◌, ℕ, List, IfOk, codes, string_bytes};

use crate::check::say_check;
use crate::front::Front;
use crate::lexical::say_lex;
use crate::say::say;
use crate::site::Site;
use crate::source::Source;
use crate::told::Told;
use crate::too_deep::say_too_deep;
use crate::unexpected::say_unexpected;
use cilk_check_scopes::Memory;
use cilk_lex::{LexFault, Token, tokens};
use std::alloc::{AllocError, Global};

/// A sentence that says what was found at the place of a fault, and what the language wants there. It ends in a full stop
/// and a newline.
pub fn sentence(alloc: Global, text: &str, fault: &Told<'_>) -> Result<String, Memory>
    ensures { IfOk result (λ s. (words : List ℕ) × (string_bytes s ≡ words ++ codes ".\n")) }
{
    let mut out = String::new(alloc);
    say_fault(alloc, &mut out, text, *fault)?;
    say(&mut out, ".\n")?;
    Ok(out)
}

fn say_fault(alloc: Global, out: &mut String, text: &str, fault: Told<'_>) -> Result<(), Memory> {
    let found = tokens_of(alloc, text)?;
    let source = Source {
        text,
        tokens: &found,
    };
    match fault {
        Told::Lex(fault) => say_lex(out, text, fault),
        Told::Unexpected(at) => say_unexpected(alloc, out, source, at),
        Told::TooDeep(at) => say_too_deep(out, &source, at),
        Told::Check(fault, program) => {
            let at = fault.place();
            let front = Front {
                source,
                index: source.index_of(at),
            };
            let site = Site { front, program, at };
            say_check(out, &site, fault)
        }
    }
}

// None where the text has a fault of its own.
fn tokens_of(alloc: Global, text: &str) -> Result<Vec<Token>, Memory> {
    match tokens(alloc, text) {
        Ok(found) => Ok(found),
        Err(LexFault::Memory) => Err(Memory::from(AllocError)),
        Err(_) => Ok(Vec::new(alloc)),
    }
}
