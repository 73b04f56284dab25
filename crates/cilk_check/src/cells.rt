//! What the declarations of a body leave of a limit of cells.

ghost use Rattle.std.specs.Prelude.{◌≡◌, ◌∷◌, [], map};
ghost use Rattle.cilk_check_scopes.specs.syntax.Tree as tree;
ghost use Rattle.cilk_check_scopes.specs.syntax.Tree.{locals_of, stmts_of};
ghost use Rattle.cilk_check_scopes.specs.syntax.ProgramView.{parameters_of};
ghost use Rattle.cilk_check_scopes.specs.Scopes.{parameter, parameters_declare, local_declares, file_declares, item_declares};
ghost use Rattle.cilk_check_scopes.specs.Declarations.{block_variables, locals_variables, stmts_variables, stmt_variables};
ghost use Rattle.cilk_check.specs.Room.{behind};

use crate::space::Room;
use cilk_check_scopes::{
    Block, Decl, GlobalShape, Item, ItemNode, Local, LocalNode, Parameters, Shape, Stmt, StmtNode,
    Word,
};

#[tactic(auto, using(crate::proofs::Rooms::rooms))]
pub(crate) fn behind_parameters(parameters: &Parameters, room: Room) -> Room
    ensures { result ≡ behind room (parameters_declare (parameters_of parameters.now)) }
{
    match parameters {
        Parameters::Ints(names) => behind_names(names, room),
        Parameters::CommandLine(count, _) => room.take(1, count.at()),
    }
}

#[tactic(auto, using(crate::proofs::Rooms::rooms))]
pub(crate) fn behind_names(names: &[Word], room: Room) -> Room
    ensures { result ≡ behind room (map parameter names.now) }
{
    let mut room = room;
    for name in names {
        room = room.take(1, name.at());
    }
    room
}

#[cycle(behind_block)]
#[tactic(auto, using(crate::proofs::Rooms::rooms))]
pub(crate) fn behind_block(block: &Block, room: Room) -> Room
    ensures { result ≡ behind room (block_variables block.now) }
{
    let room = behind_locals(&block.locals, room);
    behind_stmts(&block.stmts, room)
}

#[cycle(behind_block)]
#[tactic(auto, using(crate::proofs::Rooms::rooms))]
fn behind_stmts(stmts: &[Stmt], room: Room) -> Room
    ensures { result ≡ behind room (stmts_variables (stmts_of stmts.now)) }
{
    let mut room = room;
    for stmt in stmts {
        room = behind_stmt(stmt, room);
    }
    room
}

#[tactic(auto, using(crate::proofs::Rooms::rooms))]
fn behind_locals(locals: &[Local], room: Room) -> Room
    ensures { result ≡ behind room (locals_variables (locals_of locals.now)) }
{
    let mut room = room;
    for local in locals {
        room = behind_local(local, room);
    }
    room
}

#[tactic(auto, using(crate::proofs::Rooms::rooms))]
fn behind_local(local: &Local, room: Room) -> Room
    ensures { result ≡ behind room (local_declares local.now ∷ []) }
{
    match &local.node {
        LocalNode::Decl(decl) => behind_decl(decl, room),
        LocalNode::Inlet(_) => room,
    }
}

fn behind_decl(decl: &Decl, room: Room) -> Room
    ensures { result ≡ behind room (local_declares (tree.declared decl.now) ∷ []) }
{
    match &decl.shape {
        Shape::Variable(_) => room.take(1, decl.name.at()),
        Shape::Array(length) => room.take(*length, decl.name.at()),
    }
}

#[cycle(behind_block)]
#[tactic(auto, using(crate::proofs::Rooms::rooms))]
fn behind_stmt(stmt: &Stmt, room: Room) -> Room
    ensures { result ≡ behind room (stmt_variables stmt.now) }
{
    match &stmt.node {
        StmtNode::If(_, body, other) => {
            let room = behind_block(body, room);
            match other {
                None => room,
                Some(other) => behind_block(other, room),
            }
        }
        StmtNode::While(_, body)
        | StmtNode::Do(body, _)
        | StmtNode::For(_, _, _, body)
        | StmtNode::Switch(_, body) => behind_block(body, room),
        StmtNode::Nested(inside) => behind_block(inside, room),
        StmtNode::Move(_)
        | StmtNode::Spawn(_, _, _, _)
        | StmtNode::Print(_, _)
        | StmtNode::Locking(_, _)
        | StmtNode::Null
        | StmtNode::Sync(_)
        | StmtNode::Abort(_)
        | StmtNode::Break(_)
        | StmtNode::Continue(_)
        | StmtNode::Return(_, _)
        | StmtNode::Labelled(_) => room,
    }
}

/// What the top level leaves.
#[tactic(auto, using(crate::proofs::Rooms::rooms))]
pub(crate) fn behind_items(items: &[Item], room: Room) -> Room
    ensures { result ≡ behind room (file_declares items.now) }
{
    let mut room = room;
    for item in items {
        room = behind_item(item, room);
    }
    room
}

#[tactic(auto, using(crate::proofs::Rooms::rooms))]
fn behind_item(item: &Item, room: Room) -> Room
    ensures { result ≡ behind room (item_declares item.now) }
{
    match &item.node {
        ItemNode::Global(global) => {
            let cells = match global.shape {
                GlobalShape::Variable(_) => 1,
                GlobalShape::Array(length) => length,
            };
            room.take(cells, global.name.at())
        }
        ItemNode::Lock(_) | ItemNode::Prototype(_) | ItemNode::Procedure(_) => room,
    }
}
