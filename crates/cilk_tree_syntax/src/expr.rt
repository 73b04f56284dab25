//! Expressions of the tree.

use crate::operator::BinOp;
use crate::un_op::UnOp;
use crate::word::Word;
use std::marker::Model;

/// An expression (C 1990, 6.3), which contracts see as the `Expr` of `specs/Tree.antt`.
#[cycle(expr)]
pub struct Expr {
    pub node: ExprNode,
}

// To drop it elsewhere is to call this, and its parts' drops are proved here alone.
impl Drop for Expr {
    fn drop(self) {
        let Expr { node: _node } = self;
    }
}

/// What an expression is, and its parts.
#[cycle(expr)]
#[derive(Drop)]
pub enum ExprNode {
    Number(u32),
    Name(Word),
    /// An element of an array (C 1990, 6.3.2.1).
    Element(Word, Box<Expr>),
    /// The place of the word `SYNCHED` (Cilk 5.4 manual, `SYNCHED`).
    Synched(u32),
    Binary(BinOp, Box<Expr>, Box<Expr>),
    Unary(UnOp, Box<Expr>),
    /// A test, the value where it is not 0, and the value where it is 0.
    Choose(Box<Expr>, Box<Expr>, Box<Expr>),
}

impl Model for Expr {
    ghost use Rattle.cilk_tree_syntax.specs.Tree as tree;
    ghost use Rattle.cilk_tree_syntax.specs.ExprCoding.{coded_Expr};

    ghost Value = { tree.Expr };

    ghost coded = { coded_Expr };

    ghost use Rattle.cilk_tree_syntax.specs.ExprView.{expr_of};
    ghost use Rattle.cilk_tree_syntax.specs.ExprSize.{expr_size};

    ghost view = { λ e. expr_of e.node };

    ghost size = { expr_size };

    ghost use Rattle.cilk_tree_syntax.specs.ExprFalls.{deep_le-expr_size};

    ghost size_decreases = { λ e h. deep_le-expr_size e.node };
}
