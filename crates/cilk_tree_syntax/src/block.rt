//! Blocks of the tree: what is declared at their head, and their statements.

use crate::local::Local;
use crate::stmt::Stmt;
use std::marker::Model;

/// What is declared, and then the statements (C 1990, 6.6.2), which contracts see as the `Block` of `specs/Tree.antt`.
#[cycle(stmt)]
pub struct Block {
    pub locals: Vec<Local>,
    pub stmts: Vec<Stmt>,
}

// To drop it elsewhere is to call this, and its parts' drops are proved here alone.
impl Drop for Block {
    #[cycle(stmt)]
    fn drop(self) {
        let Block {
            locals: _locals,
            stmts: _stmts,
        } = self;
    }
}

impl Model for Block {
    ghost use Rattle.cilk_tree_syntax.specs.Tree as tree;
    ghost use Rattle.cilk_tree_syntax.specs.StmtCoding.{coded_Block};

    ghost Value = { tree.Block };

    ghost coded = { coded_Block };

    ghost use Rattle.cilk_tree_syntax.specs.Tree.{locals_of, stmts_of};
    ghost use Rattle.cilk_tree_syntax.specs.StmtSize.{block_size};

    ghost view = { λ b. tree.block (locals_of b.locals.items) (stmts_of b.stmts.items) };

    ghost size = { block_size };

    ghost use Rattle.cilk_tree_syntax.specs.StmtFalls.{deep_le-block_size};

    ghost size_decreases = { λ b h. deep_le-block_size b.locals.items b.stmts.items };
}
