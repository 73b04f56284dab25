//! The right sides that an assignment may have: expressions and calls.

ghost use Rattle.std.specs.Prelude.{◌≡◌};
ghost use Rattle.cilk_parse_grammar.specs.Parts.{assigned};
ghost use Rattle.cilk_parse.specs.StatementViews.{value_of};

use cilk_parse_grammar::{Expr, Move, MoveNode, Target, Word};

/// What an assignment writes: an expression, or the value of a call of a C function (C 1990, 6.3.16, 6.3.2.2).
pub enum RightSide {
    Computed(Expr),
    Called(Word, Vec<Expr>),
}

// To drop it elsewhere is to call this, and its parts' drops are proved here alone.
impl Drop for RightSide {
    fn drop(self) {
        match self {
            RightSide::Computed(_value) => {}
            RightSide::Called(_name, _arguments) => {}
        }
    }
}

impl RightSide {
    /// The assignment of the value.
    pub fn assigned(self, target: Target) -> Move
        ensures { result ≡ assigned target (value_of self) }
    {
        Move {
            node: match self {
                RightSide::Computed(value) => MoveNode::Assign(target, value),
                RightSide::Called(callee, arguments) => MoveNode::Call(
                    Some(target),
                    callee,
                    arguments,
                ),
            },
        }
    }
}
