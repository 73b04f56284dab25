//! How numbers with their signs are read.

ghost use Rattle.cilk_parse_grammar.specs.ReadsAs.{ReadsAs};
ghost use Rattle.cilk_parse_grammar.specs.Grammar.{integer};
ghost use Rattle.cilk_parse.specs.Limits.{read_by};

use crate::token::number;
use cilk_parse_grammar::{Cursor, Mark, ReadError};

/// A number, and the sign before it, if there is one (C 1990, 6.4). No token is a number that is no `int`.
#[tactic(auto, unfolding(cilk_parse_grammar::specs::Spelling::read_at))]
pub fn integer(cursor: &mut Cursor) -> Result<i32, ReadError>
    ensures { ReadsAs (λ z. (z, cursor.new.pieces)) result (read_by integer cursor.old.pieces) }
{
    let negative = cursor.is_mark(Mark::Minus);
    if negative {
        cursor.mark(Mark::Minus)?;
    }
    let value = number(cursor)?;
    if value > i32::MAX as u32 {
        return Err(ReadError::Memory);
    }
    if negative {
        return Ok(-(value as i32));
    }
    Ok(value as i32)
}
