//! The view `globals`: the variables and locks of the top level.

ghost use Rattle.std.specs.Prelude.{◌≡◌, ◌++◌, ◌∷◌, ◌<◌, List, length, All, take, drop, codes, IfOk, string_bytes};
ghost use Rattle.cilk_load.specs.syntax.Appends.{Appends};
ghost use Rattle.cilk_machine_agree.specs.syntax.Tree as trees;
ghost use Rattle.cilk_load.specs.labelled.Bodies.{shaped_variable};
ghost use Rattle.cilk_machine_agree.specs.spawn.Nodes.{path_at};
ghost use Rattle.cilk_machine_agree.specs.Outside.{lock_by, LockWithin};
ghost use Rattle.cilk_machine_agree.specs.model.Texts.{variable_text};
ghost use Rattle.cilk_machine_agree.specs.model.Globals.{lock_text};
ghost use Rattle.cilk_view.specs.Globals.{width, globals_by};

use crate::cells::{first_cells, other_cells, put_variable};
use crate::put::{put, put_name};
use cilk_load::Memory;
use cilk_machine_agree::{Global, GlobalShape, Item, ItemNode, Lock, Tree, Word};

/// A line for each variable and each lock among the items, where these are the cells of the
/// variables, one variable after another, and the locks in their order.
pub(crate) fn put_globals(
    out: &mut String,
    tree: &Tree,
    items: &[Item],
    cells: &[i32],
    locks: &[Lock],
) -> Result<(), Memory>
    requires { All (LockWithin (length tree.now.nodes)) locks.now }
    ensures { Appends result out.old out.new (globals_by (path_at tree.now.nodes) items.now cells.now locks.now) }
{
    let mut cells = cells;
    let mut locks = locks;
    for item in items {
        let (other_cells, other_locks) = put_item(out, tree, item, cells, locks)?;
        cells = other_cells;
        locks = other_locks;
    }
    Ok(())
}

// The line of an item, if it has one. Answers the cells and the locks of the other items.
fn put_item<'a>(
    out: &mut String,
    tree: &Tree,
    item: &Item,
    cells: &'a [i32],
    locks: &'a [Lock],
) -> Result<(&'a [i32], &'a [Lock]), Memory>
    requires { All (LockWithin (length tree.now.nodes)) locks.now }
    ensures text { IfOk result (λ others. (items : List trees.Item)
        → string_bytes out.old ++ globals_by (path_at tree.now.nodes) (item.now ∷ items) cells.now locks.now
        ≡ string_bytes out.new ++ globals_by (path_at tree.now.nodes) items others.0.now others.1.now) }
    ensures locks { IfOk result (λ others. All (LockWithin (length tree.now.nodes)) others.1.now) }
{
    match &item.node {
        ItemNode::Global(definition) => {
            let width = width_of(definition);
            put_global(out, definition, first_cells(cells, width))?;
            Ok((other_cells(cells, width), locks))
        }
        ItemNode::Lock(name) => match locks.split_first() {
            None => Ok((cells, locks)),
            Some((lock, others)) => {
                put_lock(out, tree, name, *lock)?;
                Ok((cells, others))
            }
        },
        ItemNode::Prototype(_) => Ok((cells, locks)),
        ItemNode::Procedure(_) => Ok((cells, locks)),
    }
}

// How many cells the variable has.
fn width_of(definition: &Global) -> usize
    ensures { result ≡ width definition.now }
{
    match &definition.shape {
        GlobalShape::Variable(_) => 1,
        GlobalShape::Array(length) => (*length).max(1) as usize,
    }
}

fn put_global(out: &mut String, definition: &Global, cells: &[i32]) -> Result<(), Memory>
    ensures { Appends result out.old out.new (variable_text (shaped_variable definition.now.name definition.now.shape) cells.now ++ codes "\n") }
{
    let length = match &definition.shape {
        GlobalShape::Variable(_) => 0,
        GlobalShape::Array(length) => *length,
    };
    put_variable(out, definition.name.as_str(), length, cells)?;
    put(out, "\n")
}

fn put_lock(out: &mut String, tree: &Tree, name: &Word, lock: Lock) -> Result<(), Memory>
    requires { LockWithin (length tree.now.nodes) lock }
    ensures { Appends result out.old out.new (name.now.text ++ (codes ": " ++ (lock_text (lock_by (path_at tree.now.nodes) lock) ++ codes "\n"))) }
{
    put(out, name.as_str())?;
    match lock {
        Lock::Unset => put(out, ": unset\n"),
        Lock::Free => put(out, ": free\n"),
        Lock::Held(by) => {
            put(out, ": held ")?;
            put_name(out, tree, by)?;
            put(out, "\n")
        }
    }
}
