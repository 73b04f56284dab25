//! What the head of a block may declare: variables, arrays and inlets.

use crate::decl::Decl;
use crate::inlet::Inlet;
use std::marker::Model;

/// What is declared at the head of a block (C 1990, 6.6.2), which contracts see as the `Local` of `specs/Tree.antt`.
#[cycle(stmt)]
pub struct Local {
    pub node: LocalNode,
}

// To drop it elsewhere is to call this, and its parts' drops are proved here alone.
impl Drop for Local {
    #[cycle(stmt)]
    fn drop(self) {
        let Local { node: _node } = self;
    }
}

/// A variable or an array, or an inlet.
#[cycle(stmt)]
#[derive(Drop)]
pub enum LocalNode {
    Decl(Decl),
    Inlet(Inlet),
}

impl Model for Local {
    ghost use Rattle.cilk_tree_syntax.specs.Tree as tree;
    ghost use Rattle.cilk_tree_syntax.specs.StmtCoding.{coded_Local};

    ghost Value = { tree.Local };

    ghost coded = { coded_Local };

    ghost use Rattle.cilk_tree_syntax.specs.StmtView.{local_of};
    ghost use Rattle.cilk_tree_syntax.specs.StmtSize.{local_size};

    ghost view = { λ l. local_of l.node };

    ghost size = { local_size };

    ghost use Rattle.cilk_tree_syntax.specs.StmtFalls.{deep_le-local_size};

    ghost size_decreases = { λ l h. deep_le-local_size l.node };
}
