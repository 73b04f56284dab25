//! The items of the top level: variables, locks, prototypes and definitions.

use crate::global::Global;
use crate::procedure::Proc;
use crate::prototype::Prototype;
use crate::word::Word;
use std::marker::Model;

/// What stands at the top level (C 1990, 6.7), which contracts see as the `Item` of `specs/Tree.antt`.
pub struct Item {
    pub node: ItemNode,
}

// To drop it elsewhere is to call this, and its parts' drops are proved here alone.
impl Drop for Item {
    fn drop(self) {
        let Item { node: _node } = self;
    }
}

/// What is declared or defined.
#[derive(Drop)]
pub enum ItemNode {
    Global(Global),
    /// A lock (Cilk 5.4 manual, locks).
    Lock(Word),
    Prototype(Prototype),
    Procedure(Proc),
}

impl Model for Item {
    ghost use Rattle.cilk_tree_syntax.specs.Tree as tree;
    ghost use Rattle.cilk_tree_syntax.specs.ProgramCoding.{coded_Item};

    ghost Value = { tree.Item };

    ghost coded = { coded_Item };

    ghost use Rattle.cilk_tree_syntax.specs.ProgramView.{item_of};

    ghost view = { λ i. item_of i.node };
}
