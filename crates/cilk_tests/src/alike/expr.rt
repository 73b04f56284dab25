//! Names, texts and expressions.

use super::Same;
use cilk_tree_syntax::{Expr, ExprNode, Literal, Word};

impl Same for Word {
    ghost use Rattle.cilk_tree_syntax.specs.Tree as tree;
    ghost use Rattle.cilk_tree_syntax.specs.Bare.{bare_word};

    ghost Meaning = { tree.Word };

    ghost meaning = { bare_word };

    fn same(&self, other: &Word) -> bool {
        self.as_str() == other.as_str()
    }
}

impl Same for Literal {
    ghost use Rattle.cilk_tree_syntax.specs.Tree as tree;
    ghost use Rattle.cilk_tree_syntax.specs.Bare.{bare_literal};

    ghost Meaning = { tree.Literal };

    ghost meaning = { bare_literal };

    fn same(&self, other: &Literal) -> bool {
        self.as_str() == other.as_str()
    }
}

impl Same for Expr {
    ghost use Rattle.cilk_tree_syntax.specs.Tree as tree;
    ghost use Rattle.cilk_tree_syntax.specs.Bare.{bare_expr};

    ghost Meaning = { tree.Expr };

    ghost meaning = { bare_expr };

    fn same(&self, other: &Expr) -> bool {
        match (&self.node, &other.node) {
            (ExprNode::Number(m), ExprNode::Number(n)) => m == n,
            (ExprNode::Name(a), ExprNode::Name(b)) => a.same(b),
            (ExprNode::Element(a, i), ExprNode::Element(b, j)) => a.same(b) && i.same(j),
            (ExprNode::Synched(_), ExprNode::Synched(_)) => true,
            (ExprNode::Binary(op, a, c), ExprNode::Binary(po, b, d)) => {
                op == po && a.same(b) && c.same(d)
            }
            (ExprNode::Unary(op, a), ExprNode::Unary(po, b)) => op == po && a.same(b),
            (ExprNode::Choose(a, c, e), ExprNode::Choose(b, d, f)) => {
                a.same(b) && c.same(d) && e.same(f)
            }
            _ => false,
        }
    }
}
