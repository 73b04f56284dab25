//! The variables and the locks of the top level.

ghost use Rattle.std.specs.Prelude.{◌≡◌, ◌+◌, ◌++◌, [], map, flat_map, IfOk, OnOk};
ghost use Rattle.cilk_tree_syntax.specs.Tree.{global};
ghost use Rattle.cilk_load_nodes.specs.declared.area.Area.TheVariants as area;
ghost use Rattle.cilk_load_nodes.specs.labelled.Bodies.{item_globals, item_locks};
ghost use Rattle.cilk_load_nodes.specs.Slots.{cells_of};
ghost use Rattle.cilk_load_nodes.specs.Bodies.{vars_from, lock_variable};

use crate::room::NoRoom;
use crate::variables::put_variable;
use cilk_load_nodes::{Area, Slot, Var};
use cilk_tree_syntax as syntax;
use cilk_tree_syntax::{GlobalShape, Item, ItemNode};
use std::alloc::Global;

/// The variables of the top level, in their slots.
pub fn globals_of(alloc: Global, items: &[Item]) -> Result<Vec<Var>, NoRoom>
    ensures { IfOk result (λ vars. vars.items ≡ vars_from area.Global 0 (flat_map item_globals items.now)) }
{
    let mut vars = Vec::new(alloc);
    match put_globals(alloc, &mut vars, items) {
        Ok(()) => Ok(vars),
        Err(fault) => Err(fault),
    }
}

fn put_globals(alloc: Global, vars: &mut Vec<Var>, items: &[Item]) -> Result<(), NoRoom>
    requires { vars.old.items ≡ [] }
    ensures { OnOk result (vars.new.items ≡ vars_from area.Global 0 (flat_map item_globals items.now)) }
{
    let mut cells = 0;
    for item in items {
        cells = put_global(alloc, vars, cells, item)?;
    }
    Ok(())
}

fn put_global(alloc: Global, vars: &mut Vec<Var>, cells: u32, item: &Item) -> Result<u32, NoRoom>
    ensures vars { OnOk result (vars.new.items ≡ vars.old.items ++ vars_from area.Global cells (item_globals item.now)) }
    ensures after { IfOk result (λ after. after ≡ cells + cells_of (item_globals item.now)) }
{
    match &item.node {
        ItemNode::Global(definition) => put_shaped(alloc, vars, cells, definition),
        ItemNode::Lock(_) => Ok(cells),
        ItemNode::Prototype(_) => Ok(cells),
        ItemNode::Procedure(_) => Ok(cells),
    }
}

fn put_shaped(
    alloc: Global,
    vars: &mut Vec<Var>,
    cells: u32,
    definition: &syntax::Global,
) -> Result<u32, NoRoom>
    ensures vars { OnOk result (vars.new.items ≡ vars.old.items ++ vars_from area.Global cells (item_globals (global definition.now))) }
    ensures after { IfOk result (λ after. after ≡ cells + cells_of (item_globals (global definition.now))) }
{
    match definition.shape {
        GlobalShape::Variable(value) => {
            let initial = value.unwrap_or(0);
            put_variable(
                alloc,
                vars,
                global_slot(cells, 0),
                &definition.name,
                initial,
            )
        }
        GlobalShape::Array(length) => {
            put_variable(alloc, vars, global_slot(cells, length), &definition.name, 0)
        }
    }
}

fn global_slot(cells: u32, length: u32) -> Slot
    ensures { result ≡ record { area = area.Global; offset = cells; length = length } }
{
    Slot {
        area: Area::Global,
        offset: cells,
        length,
    }
}

/// The locks of the top level, each of which takes the place of a variable.
pub fn locks_of(alloc: Global, items: &[Item]) -> Result<Vec<Var>, NoRoom>
    ensures { IfOk result (λ vars. vars.items ≡ vars_from area.Global 0 (map lock_variable (flat_map item_locks items.now))) }
{
    let mut vars = Vec::new(alloc);
    let mut cells = 0;
    for item in items {
        cells = put_lock(alloc, &mut vars, cells, item)?;
    }
    Ok(vars)
}

fn put_lock(alloc: Global, vars: &mut Vec<Var>, cells: u32, item: &Item) -> Result<u32, NoRoom>
    ensures vars { OnOk result (vars.new.items ≡ vars.old.items ++ vars_from area.Global cells (map lock_variable (item_locks item.now))) }
    ensures after { IfOk result (λ after. after ≡ cells + cells_of (map lock_variable (item_locks item.now))) }
{
    match &item.node {
        ItemNode::Lock(name) => put_variable(alloc, vars, global_slot(cells, 0), name, 0),
        ItemNode::Global(_) => Ok(cells),
        ItemNode::Prototype(_) => Ok(cells),
        ItemNode::Procedure(_) => Ok(cells),
    }
}
