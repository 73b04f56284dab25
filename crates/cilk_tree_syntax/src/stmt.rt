//! Statements of the tree, of each kind.

use crate::block::Block;
use crate::expr::Expr;
use crate::label::Label;
use crate::literal::Literal;
use crate::lock_action::LockAction;
use crate::moves::Move;
use crate::taker::Taker;
use crate::word::Word;
use std::marker::Model;

/// A statement (C 1990, 6.6; Cilk 5.4 manual), which contracts see as the `Stmt` of `specs/Tree.antt`.
#[cycle(stmt)]
pub struct Stmt {
    pub node: StmtNode,
}

// To drop it elsewhere is to call this, and its parts' drops are proved here alone.
impl Drop for Stmt {
    #[cycle(stmt)]
    fn drop(self) {
        let Stmt { node: _node } = self;
    }
}

/// What a statement is, and its parts. A number is the place of its word.
#[cycle(stmt)]
#[derive(Drop)]
pub enum StmtNode {
    Move(Move),
    /// What takes the value, the callee and its arguments (Cilk 5.4 manual, `spawn`).
    Spawn(u32, Taker, Word, Vec<Expr>),
    /// `printf` (C 1990, 7.9.6.3).
    Print(Literal, Vec<Expr>),
    Locking(LockAction, Word),
    Null,
    Sync(u32),
    Abort(u32),
    Break(u32),
    Continue(u32),
    Return(u32, Option<Expr>),
    If(Expr, Block, Option<Block>),
    While(Expr, Block),
    Do(Block, Expr),
    /// What comes first, the test, what each round ends with, and the body (C 1990, 6.6.5.3).
    For(Option<Move>, Expr, Option<Move>, Block),
    /// The test, and the body, in which labels stand between the statements (C 1990, 6.6.4.2).
    Switch(Expr, Block),
    /// A label of what follows it in the body of a `switch`.
    Labelled(Label),
    /// A block that is no body of another statement.
    Nested(Block),
}

impl Model for Stmt {
    ghost use Rattle.cilk_tree_syntax.specs.Tree as tree;
    ghost use Rattle.cilk_tree_syntax.specs.StmtCoding.{coded_Stmt};

    ghost Value = { tree.Stmt };

    ghost coded = { coded_Stmt };

    ghost use Rattle.cilk_tree_syntax.specs.StmtView.{stmt_of};
    ghost use Rattle.cilk_tree_syntax.specs.StmtSize.{stmt_size};

    ghost view = { λ s. stmt_of s.node };

    ghost size = { stmt_size };

    ghost use Rattle.cilk_tree_syntax.specs.StmtFalls.{deep_le-stmt_size};

    ghost size_decreases = { λ s h. deep_le-stmt_size s.node };
}
