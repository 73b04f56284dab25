//! How moves are read: assignments, adjustments and calls, as a `for` may have them in its header.

ghost use Rattle.cilk_parse_grammar.specs.ReadsAs.{ReadsAs};
ghost use Rattle.cilk_parse_grammar.specs.Grammar.{move, move_of_place};
ghost use Rattle.cilk_parse.specs.Limits.{read_by};
ghost use Rattle.cilk_parse.specs.StatementViews.{action_of};

use crate::action::Action;
use crate::arguments::{arguments, index};
use crate::place::{adjusted, adjustment, is_operator, operator};
use crate::token::{is_name, name};
use crate::value::value;
use cilk_parse_grammar::{Cursor, Mark, Move, MoveNode, Place, ReadError};

// What is done to a place.
#[tactic(auto, unfolding(cilk_parse_grammar::specs::Spelling::read_at))]
fn action(cursor: &mut Cursor) -> Result<Action, ReadError>
    ensures { ReadsAs (λ a. (action_of a, cursor.new.pieces)) result (read_by move_of_place cursor.old.pieces) }
{
    if is_operator(cursor) {
        let op = operator(cursor)?;
        let value = value(cursor)?;
        return Ok(Action::Write(op, value));
    }
    let by = adjustment(cursor)?;
    Ok(Action::Adjust(by))
}

/// A statement as the header of a `for` may have it (C 1990, 6.6.3, 6.6.5.3).
#[tactic(auto, unfolding(cilk_parse_grammar::specs::Spelling::read_at))]
pub fn a_move(cursor: &mut Cursor) -> Result<Move, ReadError>
    ensures { ReadsAs (λ m. (m, cursor.new.pieces)) result (read_by move cursor.old.pieces) }
{
    if !is_name(cursor) {
        return adjusted(cursor);
    }
    let name = name(cursor)?;
    if cursor.is_mark(Mark::OpenParenthesis) {
        let arguments = arguments(cursor)?;
        return Ok(Move {
            node: MoveNode::Call(None, name, arguments),
        });
    }
    let index = index(cursor)?;
    let action = action(cursor)?;
    Ok(action.on(Place { name, index }))
}
