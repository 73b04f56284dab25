//! What goes along while the nodes of a program are written, one action after the other.

ghost use Rattle.std.specs.Prelude.{◌≡◌, ◌+◌, ◌≤◌, [], vec_len};

use crate::symbol_table::SymbolTable;
use cilk_load_nodes::{Node, Var};
use std::alloc::Global;

/// The nodes that are written, and the names that are visible.
#[derive(Drop)]
pub(crate) struct Pass<'a> {
    pub(crate) alloc: Global,
    pub(crate) nodes: Vec<Node>,
    pub(crate) names: SymbolTable<'a>,
}

/// The body whose nodes are written: its number, and its variables.
#[derive(Clone, Copy)]
pub(crate) struct Site<'s> {
    pub(crate) body: u32,
    pub(crate) vars: &'s [Var],
}

impl<'a> Pass<'a> {
    /// Nothing is written, and no name is visible.
    pub(crate) fn new(alloc: Global) -> Pass<'a>
        ensures nodes { result.nodes.items ≡ [] }
        ensures names { result.names ≡ record { innermost = []; outer = [] } }
    {
        Pass {
            alloc,
            nodes: Vec::new(alloc),
            names: SymbolTable::new(alloc),
        }
    }

    /// The number of the next action.
    pub(crate) fn at(&self) -> u32
        requires { vec_len self.now.nodes ≤ 65535 }
        ensures { result ≡ vec_len self.now.nodes + 1 }
    {
        self.nodes.len() as u32 + 1
    }
}
