//! How many actions a program has, as far as the limit asks.

ghost use Rattle.std.specs.Prelude.{◌≡◌, ◌+◌, ◌≤◌, min};
ghost use Rattle.cilk_tree_syntax.specs.Tree.{stmts_of, locals_of};
ghost use Rattle.cilk_tree_syntax.specs.MoveView.{shape_of};
ghost use Rattle.cilk_load_nodes.specs.labelled.Count.{count_option, count_shape, count_stmt};
ghost use Rattle.cilk_load_nodes.specs.labelled.Count.{count_stmts, count_local, count_locals, count_block, count_item, count_items};

use cilk_tree_syntax::{
    Block, Expr, Item, ItemNode, Local, LocalNode, Move, Shape, Stmt, StmtNode,
};

/// The actions that a program may have.
pub const MAX_ACTIONS: u32 = 65_535;

/// How many actions these items have; one more than a program may have stands for any greater number.
pub fn count_items(items: &[Item]) -> u32
    ensures { result ≡ min (count_items items.now) 65536 }
{
    let mut count = 0;
    for item in items {
        count = plus(count, count_item(item));
    }
    count
}

fn count_item(item: &Item) -> u32
    ensures { result ≡ min (count_item item.now) 65536 }
{
    match &item.node {
        ItemNode::Procedure(definition) => plus(count_block(&definition.body), 1),
        ItemNode::Global(_) | ItemNode::Lock(_) | ItemNode::Prototype(_) => 0,
    }
}

#[cycle(count)]
fn count_block(block: &Block) -> u32
    ensures { result ≡ min (count_block block.now) 65536 }
{
    plus(count_locals(&block.locals), count_stmts(&block.stmts))
}

#[cycle(count)]
fn count_locals(locals: &[Local]) -> u32
    ensures { result ≡ min (count_locals (locals_of locals.now)) 65536 }
{
    let mut count = 0;
    for local in locals {
        count = plus(count, count_local(local));
    }
    count
}

#[cycle(count)]
pub(crate) fn count_local(local: &Local) -> u32
    ensures { result ≡ min (count_local local.now) 65536 }
{
    match &local.node {
        LocalNode::Decl(decl) => count_shape(&decl.shape),
        LocalNode::Inlet(inlet) => plus(count_block(&inlet.body), 1),
    }
}

/// 1 of an initialiser that is there.
pub fn count_shape(shape: &Shape) -> u32
    ensures { result ≡ count_shape (shape_of shape.now) }
{
    match shape {
        Shape::Variable(value) => count_value(value),
        Shape::Array(_) => 0,
    }
}

fn count_value(value: &Option<Expr>) -> u32
    ensures { result ≡ count_option value.now }
{
    match value {
        None => 0,
        Some(_) => 1,
    }
}

/// 1 of a part that is there.
pub fn count_part(part: &Option<Move>) -> u32
    ensures { result ≡ count_option part.now }
{
    match part {
        None => 0,
        Some(_) => 1,
    }
}

#[cycle(count)]
fn count_stmts(stmts: &[Stmt]) -> u32
    ensures { result ≡ min (count_stmts (stmts_of stmts.now)) 65536 }
{
    let mut count = 0;
    for stmt in stmts {
        count = plus(count, count_stmt(stmt));
    }
    count
}

#[cycle(count)]
fn count_stmt(stmt: &Stmt) -> u32
    ensures { result ≡ min (count_stmt stmt.now) 65536 }
{
    match &stmt.node {
        StmtNode::If(_, body, None)
        | StmtNode::Switch(_, body)
        | StmtNode::While(_, body)
        | StmtNode::Do(body, _) => plus(count_block(body), 1),
        StmtNode::If(_, body, Some(other)) => {
            plus(plus(count_block(body), count_block(other)), 1)
        }
        StmtNode::For(first, _, advance, body) => plus(
            count_block(body),
            count_part(first) + 1 + count_part(advance),
        ),
        StmtNode::Labelled(_) => 0,
        StmtNode::Nested(inside) => count_block(inside),
        _ => 1,
    }
}

fn plus(count: u32, more: u32) -> u32
    requires counted { count ≤ 65536 }
    requires added { more ≤ 65536 }
    ensures { result ≡ min (count + more) 65536 }
{
    (count + more).min(MAX_ACTIONS + 1)
}

/// How many actions an item has, of which a program may have so many.
pub fn actions_of_item(item: &Item) -> u32
    requires { count_item item.now ≤ 65535 }
    ensures { result ≡ count_item item.now }
{
    count_item(item)
}

/// How many actions a block has, of which a program may have so many.
pub fn actions_in(block: &Block) -> u32
    requires { count_block block.now ≤ 65535 }
    ensures { result ≡ count_block block.now }
{
    count_block(block)
}

/// How many actions these declarations have, of which a program may have so many.
pub fn actions_of_locals(locals: &[Local]) -> u32
    requires { count_locals (locals_of locals.now) ≤ 65535 }
    ensures { result ≡ count_locals (locals_of locals.now) }
{
    count_locals(locals)
}

/// How many actions these statements have, of which a program may have so many.
pub fn actions_of_stmts(stmts: &[Stmt]) -> u32
    requires { count_stmts (stmts_of stmts.now) ≤ 65535 }
    ensures { result ≡ count_stmts (stmts_of stmts.now) }
{
    count_stmts(stmts)
}

/// How many actions a statement has, of which a program may have so many.
pub fn actions(stmt: &Stmt) -> u32
    requires { count_stmt stmt.now ≤ 65535 }
    ensures { result ≡ count_stmt stmt.now }
{
    count_stmt(stmt)
}
