//! Variables and arrays of the top level.

use crate::global_shape::GlobalShape;
use crate::word::Word;
use std::marker::Model;

/// An `int` variable or an array of the top level (C 1990, 6.7.2).
#[derive(Drop)]
pub struct Global {
    pub name: Word,
    pub shape: GlobalShape,
}

impl Model for Global {
    ghost use Rattle.cilk_tree_syntax.specs.Tree as tree;
    ghost use Rattle.cilk_tree_syntax.specs.ProgramCoding.{coded_Global};

    ghost Value = { tree.Global };

    ghost coded = { coded_Global };

    ghost use Rattle.cilk_tree_syntax.specs.ProgramView.{global_shape_of};

    ghost view = { λ g. record { name = g.name; shape = global_shape_of g.shape } };
}
