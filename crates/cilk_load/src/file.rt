//! What the names of the top level stand for.

ghost use Rattle.std.specs.Prelude.{◌≡◌, ◌+◌, ◌++◌, IfOk, OnOk, length};
ghost use Rattle.cilk_load_nodes.specs.labelled.Bodies.{item_globals, item_locks, body_count};
ghost use Rattle.cilk_load.specs.Outer.{globals_count, locks_count, bodies_count, item_named, file_named};

use crate::numbering::bound_var;
use crate::outer::{bodies_behind, bound_number};
use crate::room::NoRoom;
use crate::symbol_table::SymbolTable;
use cilk_load_nodes::{Body, Var};
use cilk_tree_syntax::{Item, ItemNode, Memory};

// How many variables, locks and bodies of the top level come before an item.
#[derive(Clone, Copy)]
struct Before {
    globals: u32,
    locks: u32,
    bodies: u32,
}

/// Declares the names of the top level, the last one first: of two with one name the first in the text is meant.
pub(crate) fn declare_file<'a>(
    names: &mut SymbolTable<'a>,
    globals: &[Var],
    locks: &[Var],
    bodies: &[Body],
    items: &'a [Item],
) -> Result<(), NoRoom>
    requires globals { length globals.now ≡ globals_count items.now }
    requires locks { length locks.now ≡ locks_count items.now }
    requires bodies { length bodies.now ≡ bodies_count items.now }
    ensures { OnOk result (names.new ≡ record { innermost = file_named globals.now 0 0 0 items.now ++ names.old.innermost; outer = names.old.outer }) }
{
    let mut before = before_end(globals, locks, bodies)?;
    for i in 0..items.len() {
        before = declare_item(names, globals, before, &items[items.len() - 1 - i])?;
    }
    Ok(())
}

// What comes before the end of the top level.
fn before_end(globals: &[Var], locks: &[Var], bodies: &[Body]) -> Result<Before, NoRoom>
    ensures globals { IfOk result (λ b. b.globals ≡ length globals.now) }
    ensures locks { IfOk result (λ b. b.locks ≡ length locks.now) }
    ensures bodies { IfOk result (λ b. b.bodies ≡ length bodies.now) }
{
    Ok(Before {
        globals: count_of(globals.len())?,
        locks: count_of(locks.len())?,
        bodies: count_of(bodies.len())?,
    })
}

fn count_of(length: usize) -> Result<u32, NoRoom>
    ensures { IfOk result (λ count. count ≡ length) }
{
    u32::try_from(length).map_err(|_| NoRoom::TooLarge)
}

fn less(count: u32, by: u32) -> Result<u32, NoRoom>
    ensures { IfOk result (λ left. left + by ≡ count) }
{
    count.checked_sub(by).ok_or(NoRoom::TooLarge)
}

// What comes before an item, of what comes behind it.
fn before_item(behind: Before, item: &Item) -> Result<Before, NoRoom>
    ensures globals { IfOk result (λ b. b.globals + length (item_globals item.now) ≡ behind.globals) }
    ensures locks { IfOk result (λ b. b.locks + length (item_locks item.now) ≡ behind.locks) }
    ensures bodies { IfOk result (λ b. b.bodies + body_count item.now ≡ behind.bodies) }
{
    match &item.node {
        ItemNode::Global(_) => {
            let globals = less(behind.globals, 1)?;
            Ok(Before { globals, ..behind })
        }
        ItemNode::Lock(_) => {
            let locks = less(behind.locks, 1)?;
            Ok(Before { locks, ..behind })
        }
        ItemNode::Prototype(_) => Ok(behind),
        ItemNode::Procedure(definition) => {
            let count = bodies_behind(0, definition)?;
            let bodies = less(behind.bodies, count)?;
            Ok(Before { bodies, ..behind })
        }
    }
}

// Declares what an item does, and answers what comes before it.
fn declare_item<'a>(
    names: &mut SymbolTable<'a>,
    globals: &[Var],
    behind: Before,
    item: &'a Item,
) -> Result<Before, NoRoom>
    ensures names { OnOk result (names.new.outer ≡ names.old.outer) }
    ensures named { IfOk result (λ b. names.new.innermost ≡ item_named globals.now b.globals b.locks b.bodies item.now ++ names.old.innermost) }
    ensures globals { IfOk result (λ b. b.globals + length (item_globals item.now) ≡ behind.globals) }
    ensures locks { IfOk result (λ b. b.locks + length (item_locks item.now) ≡ behind.locks) }
    ensures bodies { IfOk result (λ b. b.bodies + body_count item.now ≡ behind.bodies) }
{
    let before = before_item(behind, item)?;
    declare_behind(names, globals, before, item)?;
    Ok(before)
}

// Declares what an item does, behind others.
fn declare_behind<'a>(
    names: &mut SymbolTable<'a>,
    globals: &[Var],
    before: Before,
    item: &'a Item,
) -> Result<(), Memory>
    ensures { OnOk result (names.new ≡ record {
      innermost = item_named globals.now before.globals before.locks before.bodies item.now ++ names.old.innermost;
      outer = names.old.outer;
    }) }
{
    match &item.node {
        ItemNode::Global(definition) => {
            names.declare(&definition.name, bound_var(globals, before.globals))
        }
        ItemNode::Lock(name) => names.declare(name, bound_number(before.locks)),
        ItemNode::Prototype(_) => Ok(()),
        ItemNode::Procedure(definition) => {
            names.declare(&definition.name, bound_number(before.bodies))
        }
    }
}
