//! The tables of bodies.

ghost use Rattle.std.specs.Prelude.{◌≡◌, ◌+◌, ◌≤◌, ◌++◌, ◌∷◌, [], pos, map, IfOk, OnOk, position, unwrap_or};
ghost use Rattle.cilk_tree_syntax.specs.Tree as tree;
ghost use Rattle.cilk_tree_syntax.specs.Tree.{locals_of};
ghost use Rattle.cilk_load_nodes.specs.scopes.declared.owner.Owner.TheVariants as owner;
ghost use Rattle.cilk_load_nodes.specs.scopes.Parts.{owner_of};
ghost use Rattle.cilk_load_nodes.specs.labelled.Count.{count_block, count_local, count_locals, count_item, count_items};
ghost use Rattle.cilk_load_nodes.specs.labelled.Bodies.{one_cell, parameter_variables};
ghost use Rattle.cilk_load.specs.BodyTables.{body_first, table_of, inlet_tables, item_tables, items_tables};
ghost use Rattle.cilk_load.specs.BodyTables.{starts_here};

use crate::counts::{
    actions_in, actions_of_item, actions_of_locals, actions_of_stmts, count_shape,
};
use crate::firsts::{first_if, locals_first};
use crate::room::NoRoom;
use crate::variables::{copied, put_block_variables, put_parameters, put_words};
use cilk_load_nodes::{Body, Owner, Vars};
use cilk_tree_syntax::{Block, Item, ItemNode, Local, LocalNode, Proc, Word};
use std::alloc::Global;

// The number of the first action of a body, which begins at a number.
fn body_first(block: &Block, at: u32) -> Option<u32>
    requires { at + count_block block.now ≤ 65535 }
    ensures { result ≡ body_first at block.now }
{
    let middle = at + actions_of_locals(&block.locals);
    let stmts = actions_of_stmts(&block.stmts);
    let first = first_if(stmts, middle, Some(middle + stmts));
    locals_first(&block.locals, at, first)
}

// The number of the first action, or 0, which no body has.
fn entry_of(block: &Block, at: u32) -> u32
    requires { at + count_block block.now ≤ 65535 }
    ensures { result ≡ unwrap_or (body_first at block.now) 0 }
{
    body_first(block, at).unwrap_or(0)
}

fn owner_of(definition: &Proc) -> Owner
    ensures { result ≡ owner_of definition.now.is_cilk definition.now.returns }
{
    if definition.is_cilk {
        Owner::Procedure(definition.returns)
    } else {
        Owner::Function(definition.returns)
    }
}

// Appends the table of a definition's own body.
fn put_own(alloc: Global, bodies: &mut Vec<Body>, at: u32, definition: &Proc) -> Result<(), NoRoom>
    requires { at + count_block definition.now.body ≤ 65535 }
    ensures { OnOk result (bodies.new.items ≡ bodies.old.items
        ++ table_of at (owner_of definition.now.is_cilk definition.now.returns) definition.now.name
        (parameter_variables definition.now.parameters) definition.now.body ∷ []) }
{
    let mut vars = Vec::new(alloc);
    let cells = put_parameters(alloc, &mut vars, 0, &definition.parameters)?;
    let params = u32::try_from(vars.len()).map_err(|_| NoRoom::TooLarge)?;
    let cells = put_block_variables(alloc, &mut vars, cells, &definition.body)?;
    bodies.push(Body {
        name: copied(alloc, &definition.name)?,
        owner: owner_of(definition),
        entry: entry_of(&definition.body, at),
        params,
        cells,
        vars: Vars::new(vars),
    })?;
    Ok(())
}

// Appends the table of the body of an inlet.
fn put_inlet(
    alloc: Global,
    bodies: &mut Vec<Body>,
    at: u32,
    name: &Word,
    parameters: &[Word],
    body: &Block,
) -> Result<(), NoRoom>
    requires { at + count_block body.now ≤ 65535 }
    ensures { OnOk result (bodies.new.items ≡ bodies.old.items
        ++ table_of at owner.Inlet name.now (map (one_cell (pos 0)) parameters.now) body.now ∷ []) }
{
    let mut vars = Vec::new(alloc);
    let cells = put_words(alloc, &mut vars, 0, parameters)?;
    let params = u32::try_from(vars.len()).map_err(|_| NoRoom::TooLarge)?;
    let cells = put_block_variables(alloc, &mut vars, cells, body)?;
    bodies.push(Body {
        name: copied(alloc, name)?,
        owner: Owner::Inlet,
        entry: entry_of(body, at),
        params,
        cells,
        vars: Vars::new(vars),
    })?;
    Ok(())
}

// Appends the tables of the inlets among these declarations, whose first action has the number `at`.
fn put_inlets(
    alloc: Global,
    bodies: &mut Vec<Body>,
    at: u32,
    locals: &[Local],
) -> Result<(), NoRoom>
    requires { at + count_locals (locals_of locals.now) ≤ 65536 }
    ensures { OnOk result (bodies.new.items ≡ bodies.old.items ++ inlet_tables at (locals_of locals.now)) }
{
    let mut at = at;
    for local in locals {
        at = put_declared(alloc, bodies, at, local)?;
    }
    Ok(())
}

// Appends the table of an inlet, if it is one, and answers the number of the next action.
fn put_declared(
    alloc: Global,
    bodies: &mut Vec<Body>,
    at: u32,
    local: &Local,
) -> Result<u32, NoRoom>
    requires { at + count_local local.now ≤ 65536 }
    ensures tables { OnOk result (bodies.new.items ≡ bodies.old.items ++ inlet_tables at (tree.and_local local.now tree.no_locals)) }
    ensures after { IfOk result (λ after. after ≡ at + count_local local.now) }
{
    match &local.node {
        LocalNode::Decl(decl) => Ok(at + count_shape(&decl.shape)),
        LocalNode::Inlet(inlet) => {
            put_inlet(
                alloc,
                bodies,
                at,
                &inlet.name,
                &inlet.parameters,
                &inlet.body,
            )?;
            Ok(at + actions_in(&inlet.body) + 1)
        }
    }
}

fn put_item(alloc: Global, bodies: &mut Vec<Body>, at: u32, item: &Item) -> Result<(), NoRoom>
    requires { at + count_item item.now ≤ 65536 }
    ensures { OnOk result (bodies.new.items ≡ bodies.old.items ++ item_tables at item.now) }
{
    match &item.node {
        ItemNode::Procedure(definition) => put_procedure(alloc, bodies, at, definition),
        ItemNode::Global(_) => Ok(()),
        ItemNode::Lock(_) => Ok(()),
        ItemNode::Prototype(_) => Ok(()),
    }
}

fn put_procedure(
    alloc: Global,
    bodies: &mut Vec<Body>,
    at: u32,
    definition: &Proc,
) -> Result<(), NoRoom>
    requires { at + count_item (tree.procedure definition.now) ≤ 65536 }
    ensures { OnOk result (bodies.new.items ≡ bodies.old.items ++ item_tables at (tree.procedure definition.now)) }
{
    put_own(alloc, bodies, at, definition)?;
    let body = &definition.body;
    put_inlets(alloc, bodies, at, &body.locals)
}

/// The tables of the bodies of a program.
pub fn bodies_of(alloc: Global, items: &[Item]) -> Result<Vec<Body>, NoRoom>
    requires { count_items items.now ≤ 65535 }
    ensures { IfOk result (λ bodies. bodies.items ≡ items_tables 1 items.now) }
{
    let mut bodies = Vec::new(alloc);
    let mut at = 1;
    for item in items {
        put_item(alloc, &mut bodies, at, item)?;
        at += actions_of_item(item);
    }
    Ok(bodies)
}

/// The place of the first body to start with.
pub fn place_of_main(bodies: &[Body]) -> Option<usize>
    ensures value { result ≡ position starts_here bodies.now }
{
    bodies.iter().position(|body| starts_here(body))
}

// Whether it is the body of a procedure `main`.
fn starts_here(body: &Body) -> bool
    ensures { result ≡ starts_here body.now }
{
    match body.owner {
        Owner::Procedure(_) => body.name.as_str() == "main",
        Owner::Function(_) => false,
        Owner::Inlet => false,
    }
}
