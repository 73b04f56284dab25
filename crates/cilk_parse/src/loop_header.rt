//! How what stands in the parentheses of `if`, `while`, `do` and `for` is read.

ghost use Rattle.std.specs.Prelude.{◌≡◌};
ghost use Rattle.cilk_parse_grammar.specs.ReadsAs.{ReadsAs};
ghost use Rattle.cilk_parse_grammar.specs.Rule.{first, has, class_at};
ghost use Rattle.cilk_parse_grammar.specs.Classes.{cls};
ghost use Rattle.cilk_parse_grammar.specs.Forms.{ended, before, optional};
ghost use Rattle.cilk_parse_grammar.specs.Grammar.{move, test, loop_test};
ghost use Rattle.cilk_parse_grammar.specs.Spelling.{first_of};
ghost use Rattle.cilk_parse.specs.Limits.{read_by};

use crate::moves::a_move;
use crate::token::is_name;
use cilk_parse_grammar::{Cursor, Expr, ExprNode, Mark, Move, ReadError, expression};

/// An expression in parentheses.
#[tactic(auto, unfolding(cilk_parse_grammar::specs::Spelling::read_at))]
pub fn test(cursor: &mut Cursor) -> Result<Expr, ReadError>
    ensures { ReadsAs (λ e. (e, cursor.new.pieces)) result (read_by test cursor.old.pieces) }
{
    cursor.mark(Mark::OpenParenthesis)?;
    let test = expression(cursor)?;
    cursor.mark(Mark::CloseParenthesis)?;
    Ok(test)
}

// Whether a move begins with the next token.
#[tactic(auto, using(crate::proofs::Starting::begins_move))]
fn begins_move(cursor: &Cursor) -> bool
    ensures { result ≡ has (first first_of move) (class_at cls cursor.now.pieces) }
{
    is_name(cursor) || cursor.is_mark(Mark::Increment) || cursor.is_mark(Mark::Decrement)
}

/// A move, if there is one, and this mark (C 1990, 6.6.5.3).
#[tactic(auto, unfolding(cilk_parse_grammar::specs::Spelling::read_at))]
pub fn move_before(cursor: &mut Cursor, end: Mark) -> Result<Option<Move>, ReadError>
    ensures { ReadsAs (λ m. (m, cursor.new.pieces)) result (read_by (before end (optional move)) cursor.old.pieces) }
{
    if !begins_move(cursor) {
        cursor.mark(end)?;
        return Ok(None);
    }
    let what = a_move(cursor)?;
    cursor.mark(end)?;
    Ok(Some(what))
}

/// The test of a `for`, and its semicolon; one that is missing is the number 1 (C 1990, 6.6.5.3).
#[tactic(auto, unfolding(cilk_parse_grammar::specs::Spelling::read_at))]
pub fn loop_test(cursor: &mut Cursor) -> Result<Expr, ReadError>
    ensures { ReadsAs (λ e. (e, cursor.new.pieces)) result (read_by (ended loop_test) cursor.old.pieces) }
{
    if !cursor.begins_expression() {
        cursor.mark(Mark::Semicolon)?;
        return Ok(Expr {
            node: ExprNode::Number(1),
        });
    }
    let test = expression(cursor)?;
    cursor.mark(Mark::Semicolon)?;
    Ok(test)
}
