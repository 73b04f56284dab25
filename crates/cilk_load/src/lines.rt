//! The line of the canonical text on which each action stands.

ghost use Rattle.std.specs.Prelude.{◌≡◌, ◌+◌, [], ◌∷◌, ◌++◌, IfOk, OnOk, length, vec_len};
ghost use Rattle.cilk_tree_syntax.specs.Tree.{stmts_of, locals_of};
ghost use Rattle.cilk_tree_syntax.specs.MoveView.{shape_of};
ghost use Rattle.cilk_tree_syntax.specs.StmtLines.{stmt_lines, stmts_lines, local_lines, locals_lines, block_lines};
ghost use Rattle.cilk_tree_syntax.specs.ProgramText.{item_lines, items_lines};
ghost use Rattle.cilk_load_nodes.specs.labelled.Count.{count_option, count_shape, count_stmt, count_stmts, count_local};
ghost use Rattle.cilk_load_nodes.specs.labelled.Count.{count_locals, count_block, count_item, count_items, count_program};
ghost use Rattle.cilk_load_nodes.specs.labelled.Lines.{option_lines, shape_lines, stmt_action_lines, stmts_action_lines, local_action_lines};
ghost use Rattle.cilk_load_nodes.specs.labelled.Lines.{locals_action_lines};
ghost use Rattle.cilk_load_nodes.specs.labelled.Lines.{block_action_lines, item_action_lines, items_action_lines, action_lines};

use crate::room::NoRoom;
use cilk_tree_syntax::{
    Block, Item, ItemNode, Local, LocalNode, Move, Program, Shape, Stmt, StmtNode,
};
use std::alloc::Global;

/// The lines of the actions of a program, in the order of the text.
pub fn action_lines(alloc: Global, program: &Program) -> Result<Vec<u32>, NoRoom>
    ensures lines { IfOk result (λ lines. lines.items ≡ action_lines program.now) }
    ensures len { IfOk result (λ lines. vec_len lines ≡ count_program program.now) }
{
    let mut lines = Vec::new(alloc);
    let headers = u32::try_from(program.headers.len()).map_err(|_| NoRoom::TooLarge)?;
    let first = next_line(headers)?;
    put_items(&mut lines, first, &program.items)?;
    Ok(lines)
}

fn next_line(line: u32) -> Result<u32, NoRoom>
    ensures { IfOk result (λ after. after ≡ line + 1) }
{
    line.checked_add(1).ok_or(NoRoom::TooLarge)
}

// Each of these appends the lines of the actions of what begins on a line, and answers the line behind it.
fn put_items(lines: &mut Vec<u32>, line: u32, items: &[Item]) -> Result<u32, NoRoom>
    ensures lines { OnOk result (lines.new.items ≡ lines.old.items ++ items_action_lines line items.now) }
    ensures len { OnOk result (vec_len lines.new ≡ vec_len lines.old + count_items items.now) }
    ensures after { IfOk result (λ after. after ≡ line + length (items_lines items.now)) }
{
    let mut line = line;
    for item in items {
        line = put_item(lines, line, item)?;
    }
    Ok(line)
}

fn put_item(lines: &mut Vec<u32>, line: u32, item: &Item) -> Result<u32, NoRoom>
    ensures lines { OnOk result (lines.new.items ≡ lines.old.items ++ item_action_lines line item.now) }
    ensures len { OnOk result (vec_len lines.new ≡ vec_len lines.old + count_item item.now) }
    ensures after { IfOk result (λ after. after ≡ line + length (item_lines item.now)) }
{
    match &item.node {
        ItemNode::Procedure(definition) => put_closed(lines, line, &definition.body),
        ItemNode::Global(_) => next_line(line),
        ItemNode::Lock(_) => next_line(line),
        ItemNode::Prototype(_) => next_line(line),
    }
}

#[cycle(lines)]
fn put_block(lines: &mut Vec<u32>, line: u32, block: &Block) -> Result<u32, NoRoom>
    ensures lines { OnOk result (lines.new.items ≡ lines.old.items ++ block_action_lines line block.now) }
    ensures len { OnOk result (vec_len lines.new ≡ vec_len lines.old + count_block block.now) }
    ensures after { IfOk result (λ after. after ≡ line + length (block_lines block.now)) }
{
    let line = put_locals(lines, line, &block.locals)?;
    put_stmts(lines, line, &block.stmts)
}

#[cycle(lines)]
fn put_locals(lines: &mut Vec<u32>, line: u32, locals: &[Local]) -> Result<u32, NoRoom>
    ensures lines { OnOk result (lines.new.items ≡ lines.old.items ++ locals_action_lines line (locals_of locals.now)) }
    ensures len { OnOk result (vec_len lines.new ≡ vec_len lines.old + count_locals (locals_of locals.now)) }
    ensures after { IfOk result (λ after. after ≡ line + length (locals_lines (locals_of locals.now))) }
{
    let mut line = line;
    for local in locals {
        line = put_local(lines, line, local)?;
    }
    Ok(line)
}

#[cycle(lines)]
fn put_local(lines: &mut Vec<u32>, line: u32, local: &Local) -> Result<u32, NoRoom>
    ensures lines { OnOk result (lines.new.items ≡ lines.old.items ++ local_action_lines line local.now) }
    ensures len { OnOk result (vec_len lines.new ≡ vec_len lines.old + count_local local.now) }
    ensures after { IfOk result (λ after. after ≡ line + length (local_lines local.now)) }
{
    match &local.node {
        LocalNode::Decl(decl) => put_shape(lines, line, &decl.shape),
        LocalNode::Inlet(inlet) => put_closed(lines, line, &inlet.body),
    }
}

fn put_shape(lines: &mut Vec<u32>, line: u32, shape: &Shape) -> Result<u32, NoRoom>
    ensures lines { OnOk result (lines.new.items ≡ lines.old.items ++ shape_lines line (shape_of shape.now)) }
    ensures len { OnOk result (vec_len lines.new ≡ vec_len lines.old + count_shape (shape_of shape.now)) }
    ensures after { IfOk result (λ after. after ≡ line + 1) }
{
    match shape {
        Shape::Variable(Some(_)) => put_one(lines, line),
        Shape::Variable(None) => next_line(line),
        Shape::Array(_) => next_line(line),
    }
}

fn put_one(lines: &mut Vec<u32>, line: u32) -> Result<u32, NoRoom>
    ensures lines { OnOk result (lines.new.items ≡ lines.old.items ++ line ∷ []) }
    ensures len { OnOk result (vec_len lines.new ≡ vec_len lines.old + 1) }
    ensures after { IfOk result (λ after. after ≡ line + 1) }
{
    lines.push(line)?;
    next_line(line)
}

fn put_part(lines: &mut Vec<u32>, line: u32, part: &Option<Move>) -> Result<(), NoRoom>
    ensures lines { OnOk result (lines.new.items ≡ lines.old.items ++ option_lines line part.now) }
    ensures len { OnOk result (vec_len lines.new ≡ vec_len lines.old + count_option part.now) }
{
    match part {
        None => Ok(()),
        Some(_) => Ok(lines.push(line)?),
    }
}

#[cycle(lines)]
fn put_stmts(lines: &mut Vec<u32>, line: u32, stmts: &[Stmt]) -> Result<u32, NoRoom>
    ensures lines { OnOk result (lines.new.items ≡ lines.old.items ++ stmts_action_lines line (stmts_of stmts.now)) }
    ensures len { OnOk result (vec_len lines.new ≡ vec_len lines.old + count_stmts (stmts_of stmts.now)) }
    ensures after { IfOk result (λ after. after ≡ line + length (stmts_lines (stmts_of stmts.now))) }
{
    let mut line = line;
    for stmt in stmts {
        line = put_stmt(lines, line, stmt)?;
    }
    Ok(line)
}

// A body that is closed by a line without an action.
#[cycle(lines)]
fn put_inside(lines: &mut Vec<u32>, line: u32, block: &Block) -> Result<u32, NoRoom>
    ensures lines { OnOk result (lines.new.items ≡ lines.old.items ++ block_action_lines (line + 1) block.now) }
    ensures len { OnOk result (vec_len lines.new ≡ vec_len lines.old + count_block block.now) }
    ensures after { IfOk result (λ after. after ≡ line + (length (block_lines block.now) + 2)) }
{
    let first = next_line(line)?;
    let last = put_block(lines, first, block)?;
    next_line(last)
}

// A body that is opened by the line of an action.
#[cycle(lines)]
fn put_opened(lines: &mut Vec<u32>, line: u32, block: &Block) -> Result<u32, NoRoom>
    ensures lines { OnOk result (lines.new.items ≡ lines.old.items ++ line ∷ block_action_lines (line + 1) block.now) }
    ensures len { OnOk result (vec_len lines.new ≡ vec_len lines.old + (1 + count_block block.now)) }
    ensures after { IfOk result (λ after. after ≡ line + (length (block_lines block.now) + 2)) }
{
    lines.push(line)?;
    put_inside(lines, line, block)
}

// The parts and the body of a `for`.
#[cycle(lines)]
fn put_loop(
    lines: &mut Vec<u32>,
    line: u32,
    first: &Option<Move>,
    advance: &Option<Move>,
    body: &Block,
) -> Result<u32, NoRoom>
    ensures lines { OnOk result (lines.new.items ≡ lines.old.items
        ++ (option_lines line first.now ++ line ∷ (option_lines line advance.now ++ block_action_lines (line + 1) body.now))) }
    ensures len { OnOk result (vec_len lines.new
        ≡ vec_len lines.old + (count_option first.now + (1 + (count_option advance.now + count_block body.now)))) }
    ensures after { IfOk result (λ after. after ≡ line + (length (block_lines body.now) + 2)) }
{
    put_part(lines, line, first)?;
    lines.push(line)?;
    put_part(lines, line, advance)?;
    put_inside(lines, line, body)
}

// A body that is closed by the line of an action.
#[cycle(lines)]
fn put_closed(lines: &mut Vec<u32>, line: u32, block: &Block) -> Result<u32, NoRoom>
    ensures lines { OnOk result (lines.new.items ≡ lines.old.items
        ++ (block_action_lines (line + 1) block.now ++ (line + (length (block_lines block.now) + 1)) ∷ [])) }
    ensures len { OnOk result (vec_len lines.new ≡ vec_len lines.old + (count_block block.now + 1)) }
    ensures after { IfOk result (λ after. after ≡ line + (length (block_lines block.now) + 2)) }
{
    let first = next_line(line)?;
    let last = put_block(lines, first, block)?;
    put_one(lines, last)
}

#[cycle(lines)]
fn put_stmt(lines: &mut Vec<u32>, line: u32, stmt: &Stmt) -> Result<u32, NoRoom>
    ensures lines { OnOk result (lines.new.items ≡ lines.old.items ++ stmt_action_lines line stmt.now) }
    ensures len { OnOk result (vec_len lines.new ≡ vec_len lines.old + count_stmt stmt.now) }
    ensures after { IfOk result (λ after. after ≡ line + length (stmt_lines stmt.now)) }
{
    match &stmt.node {
        StmtNode::If(_, body, None) => put_opened(lines, line, body),
        StmtNode::If(_, body, Some(other)) => {
            let between = put_opened(lines, line, body)?;
            put_inside(lines, between - 1, other)
        }
        StmtNode::While(_, body) => put_opened(lines, line, body),
        StmtNode::Do(body, _) => put_closed(lines, line, body),
        StmtNode::For(first, _, advance, body) => { put_loop(lines, line, first, advance, body) }
        StmtNode::Switch(_, body) => put_opened(lines, line, body),
        StmtNode::Labelled(_) => next_line(line),
        StmtNode::Nested(inside) => put_inside(lines, line, inside),
        _ => put_one(lines, line),
    }
}
