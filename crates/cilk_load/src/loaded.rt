//! The program that a machine runs: its tables, asked by the numbers of actions and bodies.

ghost use Rattle.std.specs.Prelude.{◌≡◌, ◌≤◌, ◌↔◌, IsSome, IfOk, Some, option_copied, string_bytes};
ghost use Rattle.std.specs.Arc.{arc_value};
ghost use Rattle.cilk_load.specs.syntax.ProgramText.{program_text};
ghost use Rattle.cilk_load_nodes.specs.scopes.WellFormed.{WellFormed};
ghost use Rattle.cilk_load.specs.labelled.Bodies.{label};
ghost use Rattle.cilk_load.specs.labelled.Count.{count_program};
ghost use Rattle.cilk_load.specs.model.End as runs;
ghost use Rattle.cilk_load.specs.nodes.Table.{node_of};
ghost use Rattle.cilk_load.specs.nodes.Bodies.{body_of, globals_of, locks_of};

use crate::tables::Tables;
use cilk_load_nodes::{Body, Node, Var};
use cilk_tree::canonical;
use cilk_tree_syntax::{Memory, Program};
use std::marker::Model;
use std::sync::Arc;

/// A program that is ready to run, which contracts see as the program's tree. Copies share their
/// tables, which nobody changes.
pub struct Loaded {
    tables: Arc<Tables>,
}

// To drop it elsewhere is to call this, and its parts' drops are proved here alone.
impl Drop for Loaded {
    fn drop(self) {
        let Loaded { tables: _tables } = self;
    }
}

impl Model for Loaded {
    ghost use Rattle.cilk_tree_syntax.specs.Tree as tree;
    ghost use Rattle.cilk_tree_syntax.specs.ProgramCoding.{coded_Program};
    ghost use Rattle.std.specs.Arc.{arc_value};

    ghost Value = { tree.Program };

    ghost coded = { coded_Program };

    ghost view = { λ l. arc_value l.tables };
}

impl Loaded {
    pub(crate) fn new(tables: Arc<Tables>) -> Loaded
        ensures { result ≡ arc_value tables }
    {
        Loaded { tables }
    }

    /// The program's tree, which may be run.
    pub fn program(&self) -> &Program
        ensures value { result.now ≡ self.now }
        ensures well_formed { WellFormed self.now }
    {
        let tables: &Tables = &self.tables;
        tables.program.program()
    }

    /// How many actions the program has.
    pub fn count(&self) -> u32
        ensures value { result ≡ count_program self.now }
        ensures limit { result ≤ 65535 }
    {
        let tables: &Tables = &self.tables;
        tables.nodes.len() as u32
    }

    /// The line of the canonical text on which action n stands, both counted from 1.
    pub fn line_of(&self, n: u32) -> Option<u32>
        ensures some { IsSome result ↔ ((1 ≤ n) × (n ≤ count_program self.now)) }
        ensures value { result ≡ runs.line_of (label self.now) n }
    {
        let tables: &Tables = &self.tables;
        let index = n.checked_sub(1)?;
        tables.lines.get(index as usize).copied()
    }

    /// The node of action n, counted from 1 on in the order of the text.
    pub fn statement(&self, n: u32) -> Option<&Node>
        ensures some { IsSome result ↔ ((1 ≤ n) × (n ≤ count_program self.now)) }
        ensures value { option_copied result ≡ node_of self.now n }
    {
        let tables: &Tables = &self.tables;
        let nodes = tables.nodes.as_slice();
        let index = n.checked_sub(1)?;
        nodes.get(index as usize)
    }

    /// The number of the body of `main`.
    pub fn main(&self) -> u32
        ensures { (label self.now).main ≡ Some result }
    {
        let tables: &Tables = &self.tables;
        tables.main
    }

    /// Body b, counted from 0 on in the order of the text, and then None.
    pub fn body(&self, b: u32) -> Option<&Body>
        ensures { option_copied result ≡ body_of self.now b }
    {
        let tables: &Tables = &self.tables;
        tables.bodies.get(b as usize)
    }

    /// The variables of the top level, in the order of the text.
    pub fn globals(&self) -> &[Var]
        ensures { result.now ≡ globals_of self.now }
    {
        let tables: &Tables = &self.tables;
        tables.globals.as_slice()
    }

    /// The locks of the top level, in the order of the text.
    pub fn locks(&self) -> &[Var]
        ensures { result.now ≡ locks_of self.now }
    {
        let tables: &Tables = &self.tables;
        tables.locks.as_slice()
    }

    /// The canonical text of the program: a line for each declaration and each statement, four
    /// spaces for each level, and parentheses round each operand that is neither a number nor a
    /// name.
    pub fn text(&self) -> Result<String, Memory>
        ensures { IfOk result (λ text. string_bytes text ≡ program_text self.now) }
    {
        let tables: &Tables = &self.tables;
        canonical(*tables.nodes.allocator(), tables.program.program())
    }

    /// An equal value, which shares the tables.
    pub fn copy(&self) -> Result<Loaded, Memory>
        ensures { IfOk result (λ copy. copy ≡ self.now) }
    {
        Ok(Loaded {
            tables: Arc::try_clone(&self.tables)?,
        })
    }
}
