//! The nodes of a program.

ghost use Rattle.std.specs.Prelude.{◌≡◌, ◌≤◌, IfOk, length, vec_len};
ghost use Rattle.cilk_load_nodes.specs.labelled.Count.{count_program};
ghost use Rattle.cilk_load_nodes.specs.Plain.{PlainItems};
ghost use Rattle.cilk_load.specs.Outer.{globals_count, locks_count, bodies_count, items_nodes, file_scope};

use crate::file::declare_file;
use crate::pass::Pass;
use crate::room::NoRoom;
use cilk_load_nodes::{Body, Node, Var};
use cilk_tree_syntax::Program;
use std::alloc::Global;

/// The nodes of the actions of a program, in the order of the text, over the tables of its variables, locks and bodies.
pub fn nodes_of(
    alloc: Global,
    globals: &[Var],
    locks: &[Var],
    bodies: &[Body],
    program: &Program,
) -> Result<Vec<Node>, NoRoom>
    requires globals { length globals.now ≡ globals_count program.now.items }
    requires locks { length locks.now ≡ locks_count program.now.items }
    requires bodies { length bodies.now ≡ bodies_count program.now.items }
    requires few { count_program program.now ≤ 65535 }
    requires plain { PlainItems program.now.items }
    ensures nodes { IfOk result (λ nodes. nodes.items ≡ items_nodes bodies.now 0 (file_scope globals.now program.now.items) 1 program.now.items) }
    ensures len { IfOk result (λ nodes. vec_len nodes ≡ count_program program.now) }
{
    let mut pass = Pass::new(alloc);
    declare_file(&mut pass.names, globals, locks, bodies, &program.items)?;
    pass.put_items(bodies, &program.items)?;
    Ok(pass.nodes)
}
