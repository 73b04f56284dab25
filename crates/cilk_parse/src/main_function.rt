//! How the parameters and the body of `main` are read, in each of its forms.

ghost use Rattle.std.specs.Prelude.{◌≡◌};
ghost use Rattle.cilk_parse_grammar.specs.ReadsAs.{ReadsAs};
ghost use Rattle.cilk_parse_grammar.specs.Grammar.{strings, command_line_tail, main_others, main_alone, main_named, main_nameless, main_ints, main_tail};
ghost use Rattle.cilk_parse_grammar.specs.Spelling.{nesting_limit};
ghost use Rattle.cilk_parse.specs.Limits.{read_in};
ghost use Rattle.cilk_parse.specs.Views.{tail_of, main_tail_of};

use crate::function::{NESTING_LIMIT, empty_tail};
use crate::main_tail::MainTail;
use crate::parameter_list::{all_named, parameter_list};
use crate::statement::block;
use crate::tail::Tail;
use crate::token::{is_class, is_name, name};
use cilk_parse_grammar::{Cursor, Keyword, Mark, NameClass, ReadError, Word};

// The words of the command line (C 1990, 5.1.2.2.1).
#[tactic(auto, unfolding(cilk_parse_grammar::specs::Spelling::read_at))]
fn strings(cursor: &mut Cursor) -> Result<Word, ReadError>
    ensures { ReadsAs (λ w. (w, cursor.new.pieces)) result (read_in nesting_limit strings cursor.old.pieces) }
{
    cursor.mark(Mark::Star)?;
    if is_name(cursor) {
        let name = name(cursor)?;
        cursor.mark(Mark::OpenBracket)?;
        cursor.mark(Mark::CloseBracket)?;
        return Ok(name);
    }
    cursor.mark(Mark::Star)?;
    name(cursor)
}

// Behind a comma: the words of the command line, and the body.
#[tactic(auto, unfolding(cilk_parse_grammar::specs::Spelling::read_at))]
fn command_line(cursor: &mut Cursor) -> Result<MainTail, ReadError>
    ensures { ReadsAs (λ t. (main_tail_of t, cursor.new.pieces)) result (read_in nesting_limit command_line_tail cursor.old.pieces) }
{
    if !is_class(cursor, NameClass::Char) {
        return Err(cursor.unexpected());
    }
    cursor.advance();
    let strings = strings(cursor)?;
    cursor.mark(Mark::CloseParenthesis)?;
    let body = block(cursor, NESTING_LIMIT)?;
    Ok(MainTail::CommandLine(strings, body))
}

// Behind a comma and `int`: the other parameters, and the body if there is one.
#[tactic(auto, unfolding(cilk_parse_grammar::specs::Spelling::read_at))]
fn others(cursor: &mut Cursor) -> Result<MainTail, ReadError>
    ensures { ReadsAs (λ t. (main_tail_of t, cursor.new.pieces)) result (read_in nesting_limit main_others cursor.old.pieces) }
{
    let parameters = parameter_list(cursor)?;
    if all_named(&parameters) && !cursor.is_mark(Mark::Semicolon) {
        let body = block(cursor, NESTING_LIMIT)?;
        return Ok(MainTail::Defines(parameters, body));
    }
    cursor.mark(Mark::Semicolon)?;
    Ok(MainTail::Declares(parameters))
}

// Behind the only parameter: the body, if there is one.
#[tactic(auto, unfolding(cilk_parse_grammar::specs::Spelling::read_at))]
fn alone(cursor: &mut Cursor) -> Result<MainTail, ReadError>
    ensures { ReadsAs (λ t. (main_tail_of t, cursor.new.pieces)) result (read_in nesting_limit main_alone cursor.old.pieces) }
{
    cursor.mark(Mark::CloseParenthesis)?;
    if cursor.is_mark(Mark::Semicolon) {
        cursor.mark(Mark::Semicolon)?;
        let others = Vec::new(cursor.alloc());
        return Ok(MainTail::Declares(others));
    }
    let body = block(cursor, NESTING_LIMIT)?;
    let others = Vec::new(cursor.alloc());
    Ok(MainTail::Defines(others, body))
}

// Behind the name of the first parameter.
#[tactic(auto, unfolding(cilk_parse_grammar::specs::Spelling::read_at))]
fn behind_name(cursor: &mut Cursor) -> Result<MainTail, ReadError>
    ensures { ReadsAs (λ t. (main_tail_of t, cursor.new.pieces)) result (read_in nesting_limit main_named cursor.old.pieces) }
{
    if cursor.is_mark(Mark::CloseParenthesis) {
        return alone(cursor);
    }
    cursor.mark(Mark::Comma)?;
    if is_class(cursor, NameClass::Char) {
        return command_line(cursor);
    }
    cursor.keyword(Keyword::Int)?;
    others(cursor)
}

// Behind the first `int` of a declaration, where no name follows.
#[tactic(auto, unfolding(cilk_parse_grammar::specs::Spelling::read_at))]
fn nameless(cursor: &mut Cursor) -> Result<Tail, ReadError>
    ensures { ReadsAs (λ t. (tail_of t, cursor.new.pieces)) result (read_in nesting_limit main_nameless cursor.old.pieces) }
{
    if cursor.is_mark(Mark::CloseParenthesis) {
        cursor.mark(Mark::CloseParenthesis)?;
        cursor.mark(Mark::Semicolon)?;
        return Ok(Tail::Declares(1));
    }
    cursor.mark(Mark::Comma)?;
    cursor.keyword(Keyword::Int)?;
    let parameters = parameter_list(cursor)?;
    cursor.mark(Mark::Semicolon)?;
    Tail::declaring(parameters.len() + 1)
}

// Behind the first `int`.
#[tactic(auto, unfolding(cilk_parse_grammar::specs::Spelling::read_at))]
fn ints(cursor: &mut Cursor) -> Result<Tail, ReadError>
    ensures { ReadsAs (λ t. (tail_of t, cursor.new.pieces)) result (read_in nesting_limit main_ints cursor.old.pieces) }
{
    if !is_name(cursor) {
        return nameless(cursor);
    }
    let first = name(cursor)?;
    let rest = behind_name(cursor)?;
    rest.behind(cursor.alloc(), first)
}

/// Behind `cilk`, `int` and `main` (C 1990, 5.1.2.2.1; Cilk 5.4 manual, `cilk`).
#[tactic(auto, unfolding(cilk_parse_grammar::specs::Spelling::read_at))]
pub fn of_main(cursor: &mut Cursor) -> Result<Tail, ReadError>
    ensures { ReadsAs (λ t. (tail_of t, cursor.new.pieces)) result (read_in nesting_limit main_tail cursor.old.pieces) }
{
    cursor.mark(Mark::OpenParenthesis)?;
    if cursor.is_mark(Mark::CloseParenthesis) {
        return empty_tail(cursor);
    }
    if cursor.is_keyword(Keyword::Void) {
        cursor.keyword(Keyword::Void)?;
        return empty_tail(cursor);
    }
    cursor.keyword(Keyword::Int)?;
    ints(cursor)
}
