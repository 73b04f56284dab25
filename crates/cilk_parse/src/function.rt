//! How a function is read behind its name: its parameters, and its body if it is defined.

ghost use Rattle.std.specs.Prelude.{◌≡◌};
ghost use Rattle.cilk_parse_grammar.specs.ReadsAs.{ReadsAs};
ghost use Rattle.cilk_parse_grammar.specs.Grammar.{int_tail, empty_tail, tail};
ghost use Rattle.cilk_parse_grammar.specs.Spelling.{nesting_limit};
ghost use Rattle.cilk_parse.specs.Limits.{read_in};
ghost use Rattle.cilk_parse.specs.Views.{tail_of};

use crate::parameter_list::{all_named, named_of, parameter_list};
use crate::statement::block;
use crate::tail::Tail;
use cilk_parse_grammar::{Cursor, Keyword, Mark, Parameters, ReadError};

/// So many statements and inlets may stand in one another.
pub const NESTING_LIMIT: u32 = 201;

// Behind `(` and `int`: the parameters of a function, and its body if it is defined (C 1990, 6.5.4.3, 6.7.1).
#[tactic(auto, unfolding(cilk_parse_grammar::specs::Spelling::read_at))]
fn int_tail(cursor: &mut Cursor) -> Result<Tail, ReadError>
    ensures { ReadsAs (λ t. (tail_of t, cursor.new.pieces)) result (read_in nesting_limit int_tail cursor.old.pieces) }
{
    let parameters = parameter_list(cursor)?;
    if all_named(&parameters) && !cursor.is_mark(Mark::Semicolon) {
        let body = block(cursor, NESTING_LIMIT)?;
        let names = named_of(cursor.alloc(), parameters)?;
        return Ok(Tail::Defines(Parameters::Ints(names), body));
    }
    cursor.mark(Mark::Semicolon)?;
    Tail::declaring(parameters.len())
}

/// Behind the parameters of a function that has none: its body, if it is defined.
#[tactic(auto, unfolding(cilk_parse_grammar::specs::Spelling::read_at))]
pub fn empty_tail(cursor: &mut Cursor) -> Result<Tail, ReadError>
    ensures { ReadsAs (λ t. (tail_of t, cursor.new.pieces)) result (read_in nesting_limit empty_tail cursor.old.pieces) }
{
    cursor.mark(Mark::CloseParenthesis)?;
    if cursor.is_mark(Mark::Semicolon) {
        cursor.mark(Mark::Semicolon)?;
        return Ok(Tail::Declares(0));
    }
    let body = block(cursor, NESTING_LIMIT)?;
    let names = Vec::new(cursor.alloc());
    Ok(Tail::Defines(Parameters::Ints(names), body))
}

/// Behind the name of a function (C 1990, 6.5.4.3, 6.7.1).
#[tactic(auto, unfolding(cilk_parse_grammar::specs::Spelling::read_at))]
pub fn function_tail(cursor: &mut Cursor) -> Result<Tail, ReadError>
    ensures { ReadsAs (λ t. (tail_of t, cursor.new.pieces)) result (read_in nesting_limit tail cursor.old.pieces) }
{
    cursor.mark(Mark::OpenParenthesis)?;
    if cursor.is_mark(Mark::CloseParenthesis) {
        return empty_tail(cursor);
    }
    if cursor.is_keyword(Keyword::Void) {
        cursor.keyword(Keyword::Void)?;
        return empty_tail(cursor);
    }
    cursor.keyword(Keyword::Int)?;
    int_tail(cursor)
}
