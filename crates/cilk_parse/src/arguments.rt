//! How arguments and subscripts are read: expressions between parentheses, commas and brackets.

ghost use Rattle.std.specs.Prelude.{◌≡◌, ◌∷◌, []};
ghost use Rattle.cilk_parse_grammar.specs.ReadsAs.{ReadsAs, onto};
ghost use Rattle.cilk_parse_grammar.specs.Forms.{mark, expression, behind_commas, commas};
ghost use Rattle.cilk_parse_grammar.specs.Grammar.{arguments, index};
ghost use Rattle.cilk_parse_grammar.specs.Spelling.{read_at};
ghost use Rattle.cilk_parse.specs.Limits.{read_by};
ghost use Rattle.cilk_parse_grammar.specs.lexeme.declared.mark.Mark.TheVariants.{Comma};

use cilk_parse_grammar::{Cursor, Expr, Mark, ReadError, expression};

// A comma and an expression.
#[tactic(auto, unfolding(cilk_parse_grammar::specs::Spelling::read_at))]
fn next_expression(cursor: &mut Cursor) -> Result<Expr, ReadError>
    ensures { ReadsAs (λ e. (e, cursor.new.pieces)) result (read_by (mark Comma expression) cursor.old.pieces) }
{
    cursor.mark(Mark::Comma)?;
    expression(cursor)
}

// Behind these expressions all that follow, each behind a comma.
fn more_expressions(cursor: &mut Cursor, mut expressions: Vec<Expr>) -> Result<Vec<Expr>, ReadError>
    ensures { ReadsAs (λ v. (v.items, cursor.new.pieces)) result
        (onto expressions.items (read_by (behind_commas expression) cursor.old.pieces)) }
{
    'each: while cursor.is_mark(Mark::Comma) {
        let next = next_expression(cursor)?;
        expressions.push(next)?;
    }
    Ok(expressions)
}

/// Expressions, each behind a comma.
#[tactic(auto, using(cilk_parse_grammar::proofs::Loops::onto_nothing))]
pub fn behind_commas(cursor: &mut Cursor) -> Result<Vec<Expr>, ReadError>
    ensures { ReadsAs (λ v. (v.items, cursor.new.pieces)) result (read_by (behind_commas expression) cursor.old.pieces) }
{
    more_expressions(cursor, Vec::new(cursor.alloc()))
}

/// One expression or more, with commas between them.
#[tactic(auto, unfolding(cilk_parse_grammar::specs::Spelling::read_at, cilk_parse_grammar::specs::ReadsAs::onto))]
pub fn expressions(cursor: &mut Cursor) -> Result<Vec<Expr>, ReadError>
    ensures { ReadsAs (λ v. (v.items, cursor.new.pieces)) result (read_by (commas expression) cursor.old.pieces) }
{
    let mut all = Vec::new(cursor.alloc());
    let first = expression(cursor)?;
    all.push(first)?;
    more_expressions(cursor, all)
}

/// What a function is called with (C 1990, 6.3.2.2).
#[tactic(auto, unfolding(cilk_parse_grammar::specs::Spelling::read_at))]
pub fn arguments(cursor: &mut Cursor) -> Result<Vec<Expr>, ReadError>
    ensures { ReadsAs (λ v. (v.items, cursor.new.pieces)) result (read_by arguments cursor.old.pieces) }
{
    cursor.mark(Mark::OpenParenthesis)?;
    if !cursor.begins_expression() {
        cursor.mark(Mark::CloseParenthesis)?;
        return Ok(Vec::new(cursor.alloc()));
    }
    let all = expressions(cursor)?;
    cursor.mark(Mark::CloseParenthesis)?;
    Ok(all)
}

/// A subscript, if one follows (C 1990, 6.3.2.1).
#[tactic(auto, unfolding(cilk_parse_grammar::specs::Spelling::read_at))]
pub fn index(cursor: &mut Cursor) -> Result<Option<Expr>, ReadError>
    ensures { ReadsAs (λ i. (i, cursor.new.pieces)) result (read_by index cursor.old.pieces) }
{
    if !cursor.is_mark(Mark::OpenBracket) {
        return Ok(None);
    }
    cursor.mark(Mark::OpenBracket)?;
    let inside = expression(cursor)?;
    cursor.mark(Mark::CloseBracket)?;
    Ok(Some(inside))
}
