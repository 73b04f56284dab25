//! Targets of the tree: a place that is written to, and how its old value is joined with the new one.

use crate::operator::BinOp;
use crate::place::Place;
use std::marker::Model;

/// What an assignment writes to, and the operator that C writes before its `=`, if there is one (C 1990, 6.3.16).
#[derive(Drop)]
pub struct Target {
    pub place: Place,
    pub op: Option<BinOp>,
}

impl Model for Target {
    ghost use Rattle.cilk_tree_syntax.specs.Tree as tree;
    ghost use Rattle.cilk_tree_syntax.specs.MoveCoding.{coded_Target};

    ghost Value = { tree.Target };

    ghost coded = { coded_Target };

    ghost view = { λ t. record { place = t.place; op = t.op } };
}
