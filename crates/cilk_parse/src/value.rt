//! How the right side of an assignment is read.

ghost use Rattle.cilk_parse_grammar.specs.ReadsAs.{ReadsAs};
ghost use Rattle.cilk_parse_grammar.specs.Expressions.{operator_limit, parenthesis_limit};
ghost use Rattle.cilk_parse_grammar.specs.Spelling.{value_at};
ghost use Rattle.cilk_parse.specs.StatementViews.{value_of};

use crate::arguments::arguments;
use crate::right_side::RightSide;
use crate::token::{is_name, name};
use cilk_parse_grammar::{Cursor, Mark, ReadError, expression};

/// A call where a name and a parenthesis come, and else an expression.
#[tactic(auto, unfolding(cilk_parse_grammar::specs::Spelling::read_at, cilk_parse_grammar::specs::Spelling::value_at))]
pub fn value(cursor: &mut Cursor) -> Result<RightSide, ReadError>
    ensures { ReadsAs (λ v. (value_of v, cursor.new.pieces)) result
        (value_at operator_limit parenthesis_limit cursor.old.pieces) }
{
    if is_name(cursor) && cursor.is_mark_second(Mark::OpenParenthesis) {
        let callee = name(cursor)?;
        let arguments = arguments(cursor)?;
        return Ok(RightSide::Called(callee, arguments));
    }
    let value = expression(cursor)?;
    Ok(RightSide::Computed(value))
}
