//! Places of the tree, to which moves and spawns write.

use crate::expr::Expr;
use crate::word::Word;
use std::marker::Model;

/// A variable, or an element of an array (C 1990, 6.3.2.1).
pub struct Place {
    pub name: Word,
    pub index: Option<Expr>,
}

// To drop it elsewhere is to call this, and its parts' drops are proved here alone.
impl Drop for Place {
    fn drop(self) {
        let Place {
            name: _name,
            index: _index,
        } = self;
    }
}

impl Model for Place {
    ghost use Rattle.cilk_tree_syntax.specs.Tree as tree;
    ghost use Rattle.cilk_tree_syntax.specs.MoveCoding.{coded_Place};

    ghost Value = { tree.Place };

    ghost coded = { coded_Place };

    ghost view = { λ p. record { name = p.name; index = p.index } };
}
