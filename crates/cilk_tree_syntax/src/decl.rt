//! Declarations of variables and arrays in bodies.

use crate::shape::Shape;
use crate::word::Word;
use std::marker::Model;

/// The declaration of one variable or array (C 1990, 6.5).
pub struct Decl {
    pub name: Word,
    pub shape: Shape,
}

// To drop it elsewhere is to call this, and its parts' drops are proved here alone.
impl Drop for Decl {
    fn drop(self) {
        let Decl {
            name: _name,
            shape: _shape,
        } = self;
    }
}

impl Model for Decl {
    ghost use Rattle.cilk_tree_syntax.specs.Tree as tree;
    ghost use Rattle.cilk_tree_syntax.specs.MoveCoding.{coded_Decl};

    ghost Value = { tree.Decl };

    ghost coded = { coded_Decl };

    ghost use Rattle.cilk_tree_syntax.specs.MoveView.{shape_of};

    ghost view = { λ d. record { name = d.name; shape = shape_of d.shape } };
}
