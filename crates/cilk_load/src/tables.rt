//! The tables of a program, which all copies of it share, and what holds of them together.

use cilk_load_nodes::{Body, Checked, Node, Var};
use std::marker::Model;

/// A program and its tables, seen as the program.
pub struct Tables {
    pub(crate) program: Checked,
    pub(crate) nodes: Vec<Node>,
    pub(crate) lines: Vec<u32>,
    pub(crate) bodies: Vec<Body>,
    pub(crate) main: u32,
    pub(crate) globals: Vec<Var>,
    pub(crate) locks: Vec<Var>,
}

// To drop them elsewhere is to call this, and their fields' drops are proved here alone.
impl Drop for Tables {
    fn drop(self) {
        let Tables {
            program: _program,
            nodes: _nodes,
            lines: _lines,
            bodies: _bodies,
            main: _,
            globals: _globals,
            locks: _locks,
        } = self;
    }
}

impl Model for Tables {
    ghost use Rattle.cilk_tree_syntax.specs.Tree as tree;
    ghost use Rattle.cilk_tree_syntax.specs.ProgramCoding.{coded_Program};

    ghost Value = { tree.Program };

    ghost coded = { coded_Program };

    ghost use Rattle.cilk_load.specs.Tables.{Tabled};

    ghost view = { λ t. t.program };

    ghost invariant = { λ t. Tabled t.program t.nodes.items t.lines.items t.bodies.items t.main t.globals.items t.locks.items };
}
