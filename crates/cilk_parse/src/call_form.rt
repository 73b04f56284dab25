//! The ways in which a statement calls the name that it begins with: an inlet on a child's value, or a C function.

ghost use Rattle.std.specs.Prelude.{◌≡◌};
ghost use Rattle.cilk_parse.specs.StatementViews.{called_by};

use crate::child::Spawned;
use cilk_parse_grammar::{Expr, Move, MoveNode, Stmt, StmtNode, Taker, Word};

/// What stands behind the name of what is called.
pub enum CallForm {
    /// The child whose value an inlet takes, and what else it is given (Cilk 5.4 manual, `inlet`).
    Inlet(Spawned, Vec<Expr>),
    /// What a function is called with (C 1990, 6.3.2.2).
    Function(Vec<Expr>),
}

// To drop it elsewhere is to call this, and its parts' drops are proved here alone.
impl Drop for CallForm {
    fn drop(self) {
        match self {
            CallForm::Inlet(_child, _others) => {}
            CallForm::Function(_arguments) => {}
        }
    }
}

impl CallForm {
    /// The statement that calls what has this name.
    pub fn by(self, name: Word) -> Stmt
        ensures { result ≡ called_by self name }
    {
        match self {
            CallForm::Inlet(child, others) => child.given(Taker::Through(name, others)),
            CallForm::Function(arguments) => Stmt {
                node: StmtNode::Move(Move {
                    node: MoveNode::Call(None, name, arguments),
                }),
            },
        }
    }
}
