//! Statements and blocks.

use super::Same;
use cilk_tree_syntax::{Block, Local, LocalNode, Stmt, StmtNode};

impl Same for Stmt {
    ghost use Rattle.cilk_tree_syntax.specs.Tree as tree;
    ghost use Rattle.cilk_tree_syntax.specs.Bare.{bare_stmt};

    ghost Meaning = { tree.Stmt };

    ghost meaning = { bare_stmt };

    #[cycle(same)]
    fn same(&self, other: &Stmt) -> bool {
        match (&self.node, &other.node) {
            (StmtNode::Move(m), StmtNode::Move(n)) => m.same(n),
            (StmtNode::Spawn(_, t, f, a), StmtNode::Spawn(_, u, g, b)) => {
                t.same(u) && f.same(g) && a.same(b)
            }
            (StmtNode::Print(t, a), StmtNode::Print(u, b)) => t.same(u) && a.same(b),
            (StmtNode::Locking(x, l), StmtNode::Locking(y, k)) => x == y && l.same(k),
            (StmtNode::Null, StmtNode::Null)
            | (StmtNode::Sync(_), StmtNode::Sync(_))
            | (StmtNode::Abort(_), StmtNode::Abort(_))
            | (StmtNode::Break(_), StmtNode::Break(_))
            | (StmtNode::Continue(_), StmtNode::Continue(_)) => true,
            (StmtNode::Return(_, a), StmtNode::Return(_, b)) => a.same(b),
            (StmtNode::If(a, s, u), StmtNode::If(b, t, v)) => {
                a.same(b) && s.same(t) && u.same(v)
            }
            (StmtNode::While(a, s), StmtNode::While(b, t)) => a.same(b) && s.same(t),
            (StmtNode::Do(s, a), StmtNode::Do(t, b)) => s.same(t) && a.same(b),
            (StmtNode::For(i, a, x, s), StmtNode::For(j, b, y, t)) => {
                i.same(j) && a.same(b) && x.same(y) && s.same(t)
            }
            (StmtNode::Switch(a, s), StmtNode::Switch(b, t)) => a.same(b) && s.same(t),
            (StmtNode::Labelled(l), StmtNode::Labelled(m)) => l.same(m),
            (StmtNode::Nested(s), StmtNode::Nested(t)) => s.same(t),
            _ => false,
        }
    }
}

impl Same for Local {
    ghost use Rattle.cilk_tree_syntax.specs.Tree as tree;
    ghost use Rattle.cilk_tree_syntax.specs.Bare.{bare_local};

    ghost Meaning = { tree.Local };

    ghost meaning = { bare_local };

    #[cycle(same)]
    fn same(&self, other: &Local) -> bool {
        match (&self.node, &other.node) {
            (LocalNode::Decl(a), LocalNode::Decl(b)) => a.same(b),
            (LocalNode::Inlet(i), LocalNode::Inlet(j)) => {
                i.name.same(&j.name) && i.parameters.same(&j.parameters) && i.body.same(&j.body)
            }
            _ => false,
        }
    }
}

impl Same for Block {
    ghost use Rattle.cilk_tree_syntax.specs.Tree as tree;
    ghost use Rattle.cilk_tree_syntax.specs.Bare.{bare_block};

    ghost Meaning = { tree.Block };

    ghost meaning = { bare_block };

    #[cycle(same)]
    #[tactic(auto, using(cilk_tree_syntax::proofs::Lists::lists))]
    fn same(&self, other: &Block) -> bool {
        self.locals.same(&other.locals) && self.stmts.same(&other.stmts)
    }
}
