//! What stands on one line of a body.

use super::Same;
use cilk_tree_syntax::{Decl, Label, Move, MoveNode, Place, Shape, Taker, Target};

impl Same for Place {
    ghost use Rattle.cilk_tree_syntax.specs.Tree as tree;
    ghost use Rattle.cilk_tree_syntax.specs.Bare.{bare_place};

    ghost Meaning = { tree.Place };

    ghost meaning = { bare_place };

    fn same(&self, other: &Place) -> bool {
        self.name.same(&other.name) && self.index.same(&other.index)
    }
}

impl Same for Target {
    ghost use Rattle.cilk_tree_syntax.specs.Tree as tree;
    ghost use Rattle.cilk_tree_syntax.specs.Bare.{bare_target};

    ghost Meaning = { tree.Target };

    ghost meaning = { bare_target };

    fn same(&self, other: &Target) -> bool {
        self.op == other.op && self.place.same(&other.place)
    }
}

impl Same for Move {
    ghost use Rattle.cilk_tree_syntax.specs.Tree as tree;
    ghost use Rattle.cilk_tree_syntax.specs.Bare.{bare_move};

    ghost Meaning = { tree.Move };

    ghost meaning = { bare_move };

    fn same(&self, other: &Move) -> bool {
        match (&self.node, &other.node) {
            (MoveNode::Assign(t, a), MoveNode::Assign(u, b)) => t.same(u) && a.same(b),
            (MoveNode::Adjust(p, by), MoveNode::Adjust(q, yb)) => by == yb && p.same(q),
            (MoveNode::Call(t, f, a), MoveNode::Call(u, g, b)) => {
                t.same(u) && f.same(g) && a.same(b)
            }
            _ => false,
        }
    }
}

impl Same for Taker {
    ghost use Rattle.cilk_tree_syntax.specs.Tree as tree;
    ghost use Rattle.cilk_tree_syntax.specs.Bare.{bare_taker};
    ghost use Rattle.cilk_tree_syntax.specs.MoveView.{taker_of};

    ghost Meaning = { tree.Taker };

    ghost meaning = { λ x. bare_taker (taker_of x) };

    fn same(&self, other: &Taker) -> bool {
        match (self, other) {
            (Taker::Nothing, Taker::Nothing) => true,
            (Taker::Into(t), Taker::Into(u)) => t.same(u),
            (Taker::Through(i, a), Taker::Through(j, b)) => i.same(j) && a.same(b),
            _ => false,
        }
    }
}

impl Same for Shape {
    ghost use Rattle.cilk_tree_syntax.specs.Tree as tree;
    ghost use Rattle.cilk_tree_syntax.specs.Bare.{bare_shape};
    ghost use Rattle.cilk_tree_syntax.specs.MoveView.{shape_of};

    ghost Meaning = { tree.Shape };

    ghost meaning = { λ x. bare_shape (shape_of x) };

    fn same(&self, other: &Shape) -> bool {
        match (self, other) {
            (Shape::Variable(a), Shape::Variable(b)) => a.same(b),
            (Shape::Array(m), Shape::Array(n)) => m == n,
            _ => false,
        }
    }
}

impl Same for Decl {
    ghost use Rattle.cilk_tree_syntax.specs.Tree as tree;
    ghost use Rattle.cilk_tree_syntax.specs.Bare.{bare_decl};

    ghost Meaning = { tree.Decl };

    ghost meaning = { bare_decl };

    fn same(&self, other: &Decl) -> bool {
        self.name.same(&other.name) && self.shape.same(&other.shape)
    }
}

impl Same for Label {
    ghost use Rattle.cilk_tree_syntax.specs.Tree as tree;
    ghost use Rattle.cilk_tree_syntax.specs.Bare.{bare_label};

    ghost Meaning = { tree.Label };

    ghost meaning = { bare_label };

    fn same(&self, other: &Label) -> bool {
        self.value == other.value
    }
}
