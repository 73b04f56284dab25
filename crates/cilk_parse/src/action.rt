//! The ways in which a move changes its place: an assignment, or `++` or `--`.

ghost use Rattle.std.specs.Prelude.{◌≡◌};
ghost use Rattle.cilk_parse.specs.StatementViews.{action_of};

use crate::right_side::RightSide;
use cilk_parse_grammar::{Adjustment, BinOp, Move, MoveNode, Place, Target};

/// What is done to a place (C 1990, 6.3.16, 6.3.2.4).
pub enum Action {
    Write(Option<BinOp>, RightSide),
    Adjust(Adjustment),
}

// To drop it elsewhere is to call this, and its parts' drops are proved here alone.
impl Drop for Action {
    fn drop(self) {
        match self {
            Action::Write(_, _value) => {}
            Action::Adjust(_) => {}
        }
    }
}

impl Action {
    /// The move that does it to this place.
    pub fn on(self, place: Place) -> Move
        ensures { result ≡ action_of self place.index place.name }
    {
        match self {
            Action::Write(op, value) => value.assigned(Target { place, op }),
            Action::Adjust(by) => Move {
                node: MoveNode::Adjust(place, by),
            },
        }
    }
}
