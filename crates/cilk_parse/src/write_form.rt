//! The ways in which a statement writes to the place that it begins with: at once, or by a child's value.

ghost use Rattle.std.specs.Prelude.{◌≡◌};
ghost use Rattle.cilk_parse.specs.StatementViews.{written_to};

use crate::action::Action;
use crate::child::Spawned;
use cilk_parse_grammar::{BinOp, Place, Stmt, StmtNode, Taker, Target};

/// What stands behind the place that a statement begins with.
pub enum WriteForm {
    /// An operator, and the child whose value it writes (Cilk 5.4 manual, `spawn`).
    Spawned(Option<BinOp>, Spawned),
    /// What is done at once (C 1990, 6.3.16, 6.3.2.4).
    Done(Action),
}

// To drop it elsewhere is to call this, and its parts' drops are proved here alone.
impl Drop for WriteForm {
    fn drop(self) {
        match self {
            WriteForm::Spawned(_, _child) => {}
            WriteForm::Done(_action) => {}
        }
    }
}

impl WriteForm {
    /// The statement that writes to this place.
    pub fn to(self, place: Place) -> Stmt
        ensures { result ≡ written_to self place.index place.name }
    {
        match self {
            WriteForm::Spawned(op, child) => child.given(Taker::Into(Target { place, op })),
            WriteForm::Done(action) => Stmt {
                node: StmtNode::Move(action.on(place)),
            },
        }
    }
}
