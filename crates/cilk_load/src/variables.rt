//! The variables of one body, in their slots: parameters first, and then what its blocks declare.

ghost use Rattle.std.specs.Prelude.{◌≡◌, ◌+◌, pos, [], ◌∷◌, ◌++◌, max, IfOk, OnOk, map};
ghost use Rattle.cilk_load_nodes.specs.declared.area.Area.TheVariants.{Own};
ghost use Rattle.cilk_tree_syntax.specs.Tree.{stmts_of, locals_of};
ghost use Rattle.cilk_tree_syntax.specs.MoveView.{shape_of};
ghost use Rattle.cilk_tree_syntax.specs.ProgramView.{parameters_of};
ghost use Rattle.cilk_load_nodes.specs.labelled.Label.{shape_length, stmt_variables, stmts_variables, local_variables, locals_variables, block_variables};
ghost use Rattle.cilk_load_nodes.specs.labelled.Bodies.{one_cell, parameter_variables};
ghost use Rattle.cilk_load_nodes.specs.Slots.{cells_of};
ghost use Rattle.cilk_load_nodes.specs.Bodies.{vars_from};

use crate::room::NoRoom;
use cilk_load_nodes::{Area, Name, Slot, Var};
use cilk_tree_syntax::{Block, Local, LocalNode, Parameters, Shape, Stmt, StmtNode, Word};
use std::alloc::Global;

/// A name of its own.
pub(crate) fn copied(alloc: Global, word: &Word) -> Result<Name, NoRoom>
    ensures { IfOk result (λ name. name ≡ word.now.text) }
{
    let text = String::from_str(alloc, word.as_str())?;
    Ok(Name::new(text))
}

/// Appends a variable whose cells begin at a place. Each of these answers the place behind the cells.
pub(crate) fn put_variable(
    alloc: Global,
    vars: &mut Vec<Var>,
    slot: Slot,
    name: &Word,
    initial: i32,
) -> Result<u32, NoRoom>
    ensures vars { OnOk result (vars.new.items ≡ vars.old.items
        ++ vars_from slot.area slot.offset (record { name = name.now.text; length = slot.length; initial = initial } ∷ [])) }
    ensures after { IfOk result (λ cells. cells ≡ slot.offset + max slot.length 1) }
{
    let name = copied(alloc, name)?;
    vars.push(Var {
        name,
        slot,
        length: slot.length,
        initial,
    })?;
    slot.offset
        .checked_add(slot.length.max(1))
        .ok_or(NoRoom::TooLarge)
}

fn own_slot(cells: u32, length: u32) -> Slot
    ensures { result ≡ record { area = Own; offset = cells; length = length } }
{
    Slot {
        area: Area::Own,
        offset: cells,
        length,
    }
}

/// Appends parameters.
pub(crate) fn put_words(
    alloc: Global,
    vars: &mut Vec<Var>,
    cells: u32,
    words: &[Word],
) -> Result<u32, NoRoom>
    ensures vars { OnOk result (vars.new.items ≡ vars.old.items ++ vars_from Own cells (map (one_cell (pos 0)) words.now)) }
    ensures after { IfOk result (λ after. after ≡ cells + cells_of (map (one_cell (pos 0)) words.now)) }
{
    let mut cells = cells;
    for word in words {
        cells = put_variable(alloc, vars, own_slot(cells, 0), word, 0)?;
    }
    Ok(cells)
}

pub(crate) fn put_parameters(
    alloc: Global,
    vars: &mut Vec<Var>,
    cells: u32,
    parameters: &Parameters,
) -> Result<u32, NoRoom>
    ensures vars { OnOk result (vars.new.items ≡ vars.old.items ++ vars_from Own cells (parameter_variables (parameters_of parameters.now))) }
    ensures after { IfOk result (λ after. after ≡ cells + cells_of (parameter_variables (parameters_of parameters.now))) }
{
    match parameters {
        Parameters::Ints(words) => put_words(alloc, vars, cells, words),
        Parameters::CommandLine(count, _) => {
            put_variable(alloc, vars, own_slot(cells, 0), count, 1)
        }
    }
}

/// Appends what a block and its inner blocks declare.
#[cycle(variables)]
pub(crate) fn put_block_variables(
    alloc: Global,
    vars: &mut Vec<Var>,
    cells: u32,
    block: &Block,
) -> Result<u32, NoRoom>
    ensures vars { OnOk result (vars.new.items ≡ vars.old.items ++ vars_from Own cells (block_variables block.now)) }
    ensures after { IfOk result (λ after. after ≡ cells + cells_of (block_variables block.now)) }
{
    let cells = put_locals(alloc, vars, cells, &block.locals)?;
    put_stmts(alloc, vars, cells, &block.stmts)
}

fn put_locals(
    alloc: Global,
    vars: &mut Vec<Var>,
    cells: u32,
    locals: &[Local],
) -> Result<u32, NoRoom>
    ensures vars { OnOk result (vars.new.items ≡ vars.old.items ++ vars_from Own cells (locals_variables (locals_of locals.now))) }
    ensures after { IfOk result (λ after. after ≡ cells + cells_of (locals_variables (locals_of locals.now))) }
{
    let mut cells = cells;
    for local in locals {
        cells = put_local(alloc, vars, cells, local)?;
    }
    Ok(cells)
}

fn put_local(alloc: Global, vars: &mut Vec<Var>, cells: u32, local: &Local) -> Result<u32, NoRoom>
    ensures vars { OnOk result (vars.new.items ≡ vars.old.items ++ vars_from Own cells (local_variables local.now)) }
    ensures after { IfOk result (λ after. after ≡ cells + cells_of (local_variables local.now)) }
{
    match &local.node {
        LocalNode::Decl(decl) => {
            let length = length_of(&decl.shape);
            put_variable(alloc, vars, own_slot(cells, length), &decl.name, 0)
        }
        LocalNode::Inlet(_) => Ok(cells),
    }
}

fn length_of(shape: &Shape) -> u32
    ensures { result ≡ shape_length (shape_of shape.now) }
{
    match shape {
        Shape::Variable(_) => 0,
        Shape::Array(length) => *length,
    }
}

#[cycle(variables)]
fn put_stmts(alloc: Global, vars: &mut Vec<Var>, cells: u32, stmts: &[Stmt]) -> Result<u32, NoRoom>
    ensures vars { OnOk result (vars.new.items ≡ vars.old.items ++ vars_from Own cells (stmts_variables (stmts_of stmts.now))) }
    ensures after { IfOk result (λ after. after ≡ cells + cells_of (stmts_variables (stmts_of stmts.now))) }
{
    let mut cells = cells;
    for stmt in stmts {
        cells = put_stmt(alloc, vars, cells, stmt)?;
    }
    Ok(cells)
}

#[cycle(variables)]
fn put_stmt(alloc: Global, vars: &mut Vec<Var>, cells: u32, stmt: &Stmt) -> Result<u32, NoRoom>
    ensures vars { OnOk result (vars.new.items ≡ vars.old.items ++ vars_from Own cells (stmt_variables stmt.now)) }
    ensures after { IfOk result (λ after. after ≡ cells + cells_of (stmt_variables stmt.now)) }
{
    match &stmt.node {
        StmtNode::If(_, body, None) => put_block_variables(alloc, vars, cells, body),
        StmtNode::If(_, body, Some(other)) => {
            let cells = put_block_variables(alloc, vars, cells, body)?;
            put_block_variables(alloc, vars, cells, other)
        }
        StmtNode::While(_, body) => put_block_variables(alloc, vars, cells, body),
        StmtNode::Do(body, _) => put_block_variables(alloc, vars, cells, body),
        StmtNode::For(_, _, _, body) => put_block_variables(alloc, vars, cells, body),
        StmtNode::Switch(_, body) => put_block_variables(alloc, vars, cells, body),
        StmtNode::Nested(inside) => put_block_variables(alloc, vars, cells, inside),
        _ => Ok(cells),
    }
}
