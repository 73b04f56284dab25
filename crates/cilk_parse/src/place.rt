//! How places are read, and the operators that change them.

ghost use Rattle.std.specs.Prelude.{◌≡◌};
ghost use Rattle.cilk_parse_grammar.specs.ReadsAs.{ReadsAs};
ghost use Rattle.cilk_parse_grammar.specs.Rule.{first, has, class_at};
ghost use Rattle.cilk_parse_grammar.specs.Classes.{cls};
ghost use Rattle.cilk_parse_grammar.specs.Grammar.{place, op, adjustment, adjusted};
ghost use Rattle.cilk_parse_grammar.specs.Spelling.{first_of};
ghost use Rattle.cilk_parse.specs.Limits.{read_by};

use crate::arguments::index;
use crate::token::name;
use cilk_parse_grammar::{Adjustment, BinOp, Cursor, Mark, Move, MoveNode, Place, ReadError};

/// A variable or an element of an array (C 1990, 6.3.1, 6.3.2.1).
#[tactic(auto, unfolding(cilk_parse_grammar::specs::Spelling::read_at))]
pub fn place(cursor: &mut Cursor) -> Result<Place, ReadError>
    ensures { ReadsAs (λ p. (p, cursor.new.pieces)) result (read_by place cursor.old.pieces) }
{
    let name = name(cursor)?;
    let index = index(cursor)?;
    Ok(Place { name, index })
}

/// Whether the next token is the operator of an assignment (C 1990, 6.3.16).
pub fn is_operator(cursor: &Cursor) -> bool
    ensures { result ≡ has (first first_of op) (class_at cls cursor.now.pieces) }
{
    cursor.is_mark(Mark::Assign)
        || cursor.is_mark(Mark::AddAssign)
        || cursor.is_mark(Mark::SubtractAssign)
        || cursor.is_mark(Mark::MultiplyAssign)
        || cursor.is_mark(Mark::DivideAssign)
        || cursor.is_mark(Mark::RemainderAssign)
        || cursor.is_mark(Mark::ShiftLeftAssign)
        || cursor.is_mark(Mark::ShiftRightAssign)
        || cursor.is_mark(Mark::BitAndAssign)
        || cursor.is_mark(Mark::BitXorAssign)
        || cursor.is_mark(Mark::BitOrAssign)
}

/// The operator of an assignment that C writes before its `=`, if there is one (C 1990, 6.3.16).
#[tactic(auto, unfolding(cilk_parse_grammar::specs::Spelling::read_at))]
pub fn operator(cursor: &mut Cursor) -> Result<Option<BinOp>, ReadError>
    ensures { ReadsAs (λ o. (o, cursor.new.pieces)) result (read_by op cursor.old.pieces) }
{
    let operator = if cursor.is_mark(Mark::Assign) {
        None
    } else if cursor.is_mark(Mark::AddAssign) {
        Some(BinOp::Add)
    } else if cursor.is_mark(Mark::SubtractAssign) {
        Some(BinOp::Subtract)
    } else if cursor.is_mark(Mark::MultiplyAssign) {
        Some(BinOp::Multiply)
    } else if cursor.is_mark(Mark::DivideAssign) {
        Some(BinOp::Divide)
    } else if cursor.is_mark(Mark::RemainderAssign) {
        Some(BinOp::Remainder)
    } else if cursor.is_mark(Mark::ShiftLeftAssign) {
        Some(BinOp::ShiftLeft)
    } else if cursor.is_mark(Mark::ShiftRightAssign) {
        Some(BinOp::ShiftRight)
    } else if cursor.is_mark(Mark::BitAndAssign) {
        Some(BinOp::BitAnd)
    } else if cursor.is_mark(Mark::BitXorAssign) {
        Some(BinOp::BitXor)
    } else if cursor.is_mark(Mark::BitOrAssign) {
        Some(BinOp::BitOr)
    } else {
        return Err(cursor.unexpected());
    };
    cursor.advance();
    Ok(operator)
}

/// `++` or `--` (C 1990, 6.3.2.4, 6.3.3.1).
#[tactic(auto, unfolding(cilk_parse_grammar::specs::Spelling::read_at))]
pub fn adjustment(cursor: &mut Cursor) -> Result<Adjustment, ReadError>
    ensures { ReadsAs (λ a. (a, cursor.new.pieces)) result (read_by adjustment cursor.old.pieces) }
{
    if cursor.is_mark(Mark::Increment) {
        cursor.mark(Mark::Increment)?;
        return Ok(Adjustment::Increment);
    }
    cursor.mark(Mark::Decrement)?;
    Ok(Adjustment::Decrement)
}

/// `++` or `--` and a place (C 1990, 6.3.3.1).
#[tactic(auto, unfolding(cilk_parse_grammar::specs::Spelling::read_at))]
pub fn adjusted(cursor: &mut Cursor) -> Result<Move, ReadError>
    ensures { ReadsAs (λ m. (m, cursor.new.pieces)) result (read_by adjusted cursor.old.pieces) }
{
    let by = adjustment(cursor)?;
    let place = place(cursor)?;
    Ok(Move {
        node: MoveNode::Adjust(place, by),
    })
}
