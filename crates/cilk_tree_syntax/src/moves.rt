//! Moves of the tree: assignments, adjustments and calls.

use crate::adjustment::Adjustment;
use crate::expr::Expr;
use crate::place::Place;
use crate::target::Target;
use crate::word::Word;
use std::marker::Model;

/// One of the statements that a `for` may have in its header (C 1990, 6.6.5.3), which contracts see as the `Move` of
/// `specs/Tree.antt`.
pub struct Move {
    pub node: MoveNode,
}

// To drop it elsewhere is to call this, and its parts' drops are proved here alone.
impl Drop for Move {
    fn drop(self) {
        let Move { node: _node } = self;
    }
}

/// What is done, and its parts.
#[derive(Drop)]
pub enum MoveNode {
    Assign(Target, Expr),
    Adjust(Place, Adjustment),
    /// What takes the value, if anything does, the callee and its arguments (C 1990, 6.3.2.2).
    Call(Option<Target>, Word, Vec<Expr>),
}

impl Model for Move {
    ghost use Rattle.cilk_tree_syntax.specs.Tree as tree;
    ghost use Rattle.cilk_tree_syntax.specs.MoveCoding.{coded_Move};

    ghost Value = { tree.Move };

    ghost coded = { coded_Move };

    ghost use Rattle.cilk_tree_syntax.specs.MoveView.{move_of};

    ghost view = { λ m. move_of m.node };
}
