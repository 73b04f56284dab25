//! How the parameters of an inlet are read.

ghost use Rattle.std.specs.Prelude.{◌≡◌};
ghost use Rattle.cilk_parse_grammar.specs.lexeme.declared.keyword.Keyword.TheVariants.{Int};
ghost use Rattle.cilk_parse_grammar.specs.lexeme.declared.mark.Mark.TheVariants.{Comma};
ghost use Rattle.cilk_parse_grammar.specs.ReadsAs.{ReadsAs, onto};
ghost use Rattle.cilk_parse_grammar.specs.Forms.{word, mark, commas, behind_commas};
ghost use Rattle.cilk_parse_grammar.specs.Grammar.{name, parameters};
ghost use Rattle.cilk_parse.specs.Limits.{read_by};

use crate::token::name;
use cilk_parse_grammar::{Cursor, Keyword, Mark, ReadError, Word};

// `int` and a name.
#[tactic(auto, unfolding(cilk_parse_grammar::specs::Spelling::read_at))]
fn parameter(cursor: &mut Cursor) -> Result<Word, ReadError>
    ensures { ReadsAs (λ w. (w, cursor.new.pieces)) result (read_by (word Int name) cursor.old.pieces) }
{
    cursor.keyword(Keyword::Int)?;
    name(cursor)
}

// A comma and a parameter.
#[tactic(auto, unfolding(cilk_parse_grammar::specs::Spelling::read_at))]
fn next_parameter(cursor: &mut Cursor) -> Result<Word, ReadError>
    ensures { ReadsAs (λ w. (w, cursor.new.pieces)) result (read_by (mark Comma (word Int name)) cursor.old.pieces) }
{
    cursor.mark(Mark::Comma)?;
    parameter(cursor)
}

// Behind these parameters all that follow, each behind a comma.
fn more_parameters(cursor: &mut Cursor, mut names: Vec<Word>) -> Result<Vec<Word>, ReadError>
    ensures { ReadsAs (λ v. (v.items, cursor.new.pieces)) result
        (onto names.items (read_by (behind_commas (word Int name)) cursor.old.pieces)) }
{
    'each: while cursor.is_mark(Mark::Comma) {
        let next = next_parameter(cursor)?;
        names.push(next)?;
    }
    Ok(names)
}

// One parameter or more, with commas between them.
#[tactic(auto, unfolding(cilk_parse_grammar::specs::Spelling::read_at, cilk_parse_grammar::specs::ReadsAs::onto))]
fn some_parameters(cursor: &mut Cursor) -> Result<Vec<Word>, ReadError>
    ensures { ReadsAs (λ v. (v.items, cursor.new.pieces)) result (read_by (commas (word Int name)) cursor.old.pieces) }
{
    let mut all = Vec::new(cursor.alloc());
    let first = parameter(cursor)?;
    all.push(first)?;
    more_parameters(cursor, all)
}

/// The parameters of an inlet, all `int` (C 1990, 6.5.4.3).
#[tactic(auto, unfolding(cilk_parse_grammar::specs::Spelling::read_at))]
pub fn parameters(cursor: &mut Cursor) -> Result<Vec<Word>, ReadError>
    ensures { ReadsAs (λ v. (v.items, cursor.new.pieces)) result (read_by parameters cursor.old.pieces) }
{
    cursor.mark(Mark::OpenParenthesis)?;
    let mut names = Vec::new(cursor.alloc());
    if cursor.is_keyword(Keyword::Void) {
        cursor.keyword(Keyword::Void)?;
    } else if cursor.is_keyword(Keyword::Int) {
        names = some_parameters(cursor)?;
    }
    cursor.mark(Mark::CloseParenthesis)?;
    Ok(names)
}
