//! How the parameters of a prototype or a definition are read, with or without names.

ghost use Rattle.std.specs.Prelude.{◌≡◌, MatchResult};
ghost use Rattle.cilk_lex.specs.lexeme.declared.keyword.Keyword.TheVariants.{Int};
ghost use Rattle.cilk_lex.specs.lexeme.declared.mark.Mark.TheVariants.{Comma};
ghost use Rattle.cilk_parse_grammar.specs.ReadsAs.{ReadsAs, onto};
ghost use Rattle.cilk_parse_grammar.specs.Forms.{word, mark, optional, behind_commas};
ghost use Rattle.cilk_parse_grammar.specs.Grammar.{name, parameter_list, all_named, named_of};
ghost use Rattle.cilk_parse_grammar.specs.Spelling.{nesting_limit};
ghost use Rattle.cilk_parse.specs.Limits.{read_in};

use crate::token::{is_name, name};
use cilk_parse_grammar::{Cursor, Keyword, Mark, ReadError, Word};
use std::alloc::Global;

// A name, if there is one.
#[tactic(auto, unfolding(cilk_parse_grammar::specs::Spelling::read_at))]
fn optional_name(cursor: &mut Cursor) -> Result<Option<Word>, ReadError>
    ensures { ReadsAs (λ w. (w, cursor.new.pieces)) result (read_in nesting_limit (optional name) cursor.old.pieces) }
{
    if !is_name(cursor) {
        return Ok(None);
    }
    let name = name(cursor)?;
    Ok(Some(name))
}

// A comma, `int` and the name of a parameter, if it has one.
#[tactic(auto, unfolding(cilk_parse_grammar::specs::Spelling::read_at))]
fn next_parameter(cursor: &mut Cursor) -> Result<Option<Word>, ReadError>
    ensures { ReadsAs (λ w. (w, cursor.new.pieces)) result (read_in nesting_limit (mark Comma (word Int (optional name))) cursor.old.pieces) }
{
    cursor.mark(Mark::Comma)?;
    cursor.keyword(Keyword::Int)?;
    optional_name(cursor)
}

// Behind these parameters all that follow.
fn more_parameters(
    cursor: &mut Cursor,
    mut names: Vec<Option<Word>>,
) -> Result<Vec<Option<Word>>, ReadError>
    ensures { ReadsAs (λ v. (v.items, cursor.new.pieces)) result
        (onto names.items (read_in nesting_limit (behind_commas (word Int (optional name))) cursor.old.pieces)) }
{
    'each: while cursor.is_mark(Mark::Comma) {
        let next = next_parameter(cursor)?;
        names.push(next)?;
    }
    Ok(names)
}

/// Behind the first `int`: the names that the parameters have, and the end of these (C 1990, 6.5.4.3).
#[tactic(auto, unfolding(cilk_parse_grammar::specs::Spelling::read_at, cilk_parse_grammar::specs::ReadsAs::onto))]
pub fn parameter_list(cursor: &mut Cursor) -> Result<Vec<Option<Word>>, ReadError>
    ensures { ReadsAs (λ v. (v.items, cursor.new.pieces)) result (read_in nesting_limit parameter_list cursor.old.pieces) }
{
    let mut all = Vec::new(cursor.alloc());
    let first = optional_name(cursor)?;
    all.push(first)?;
    let all = more_parameters(cursor, all)?;
    cursor.mark(Mark::CloseParenthesis)?;
    Ok(all)
}

/// Whether each parameter has a name.
pub fn all_named(names: &[Option<Word>]) -> bool
    ensures { result ≡ all_named names.now }
{
    'each: for name in names {
        if name.is_none() {
            return false;
        }
    }
    true
}

/// The names that there are.
pub fn named_of(alloc: Global, names: Vec<Option<Word>>) -> Result<Vec<Word>, ReadError>
    ensures { MatchResult result (λ v. v.items ≡ named_of names.items) (λ e. e ≡ ReadError.Memory) }
{
    let mut found = Vec::new(alloc);
    'each: for name in names {
        if let Some(name) = name {
            found.push(name)?;
        }
    }
    Ok(found)
}
