//! The actions of other statements.

ghost use Rattle.std.specs.Prelude.{◌≡◌, IfOk, IsOkAnd, Some};
ghost use Rattle.cilk_tree_syntax.specs.MoveView.{taker_of};
ghost use Rattle.cilk_load_nodes.specs.declared.action.Action.TheVariants.{Print, Locking};
ghost use Rattle.cilk_load.specs.Acts.{codes_in, number_in, taker_in, spawn_in, return_in, initialiser_in, action_in};

use crate::code::{code_in, codes_in};
use crate::moves::{move_in, target_in};
use crate::symbol_table::SymbolTable;
use cilk_load_nodes::{Action, SlotPlace, Taker, Target, Text};
use cilk_tree_syntax as tree;
use cilk_tree_syntax::{Expr, Literal, LockAction, Memory, Stmt, StmtNode, Word};
use std::alloc::Global;

fn taker_in(alloc: Global, names: &SymbolTable, taker: &tree::Taker) -> Result<Taker, Memory>
    ensures { IfOk result (λ t. t ≡ taker_in names.now (taker_of taker.now)) }
{
    match taker {
        tree::Taker::Nothing => Ok(Taker::Nothing),
        tree::Taker::Into(target) => Ok(Taker::Into(target_in(alloc, names, target)?)),
        tree::Taker::Through(inlet, others) => Ok(Taker::Through(
            names.binding(inlet.as_str()).number,
            codes_in(alloc, names, others)?,
        )),
    }
}

fn spawn_in(
    alloc: Global,
    names: &SymbolTable,
    taker: &tree::Taker,
    callee: &Word,
    arguments: &[Expr],
) -> Result<Action, Memory>
    ensures { IfOk result (λ action. action ≡ spawn_in names.now (taker_of taker.now) callee.now arguments.now) }
{
    let taker = taker_in(alloc, names, taker)?;
    let callee = names.binding(callee.as_str()).number;
    Ok(Action::Spawn(taker, callee, codes_in(alloc, names, arguments)?))
}

// A `printf` of this format.
fn print_in(
    alloc: Global,
    names: &SymbolTable,
    format: &Literal,
    arguments: &[Expr],
) -> Result<Action, Memory>
    ensures { IfOk result (λ action. action ≡ Print format.now.bytes (codes_in names.now arguments.now)) }
{
    let text = String::from_str(alloc, format.as_str())?;
    Ok(Action::Print(Text::new(text), codes_in(alloc, names, arguments)?))
}

// A `return`, with this value or without one.
fn return_in(alloc: Global, names: &SymbolTable, value: &Option<Expr>) -> Result<Action, Memory>
    ensures { IfOk result (λ action. action ≡ return_in names.now value.now) }
{
    match value {
        None => Ok(Action::ReturnNothing),
        Some(value) => Ok(Action::Return(code_in(alloc, names, value)?)),
    }
}

// An action, if it was made.
fn one(action: Result<Action, Memory>) -> Result<Option<Action>, Memory>
    ensures { IfOk result (λ one. IsOkAnd action (λ act. one ≡ Some act)) }
{
    match action {
        Ok(action) => Ok(Some(action)),
        Err(e) => Err(e),
    }
}

/// The action of a statement that is one action.
pub fn action_in(alloc: Global, names: &SymbolTable, stmt: &Stmt) -> Result<Option<Action>, Memory>
    ensures { IfOk result (λ action. action ≡ action_in names.now stmt.now) }
{
    match &stmt.node {
        StmtNode::Move(what) => one(move_in(alloc, names, what)),
        StmtNode::Spawn(_, taker, callee, arguments) => {
            one(spawn_in(alloc, names, taker, callee, arguments))
        }
        StmtNode::Print(format, arguments) => one(print_in(alloc, names, format, arguments)),
        StmtNode::Locking(what, name) => Ok(Some(locking_in(names, *what, name))),
        StmtNode::Null => Ok(Some(Action::Null)),
        StmtNode::Sync(_) => Ok(Some(Action::Sync)),
        StmtNode::Abort(_) => Ok(Some(Action::Abort)),
        StmtNode::Break(_) => Ok(Some(Action::Break)),
        StmtNode::Continue(_) => Ok(Some(Action::Continue)),
        StmtNode::Return(_, value) => one(return_in(alloc, names, value)),
        _ => Ok(None),
    }
}

fn locking_in(names: &SymbolTable, what: LockAction, name: &Word) -> Action
    ensures { result ≡ Locking what (number_in names.now name.now) }
{
    Action::Locking(what, names.binding(name.as_str()).number)
}

/// An initialiser of the variable of this name.
pub fn initialiser_in(
    alloc: Global,
    names: &SymbolTable,
    name: &Word,
    value: &Expr,
) -> Result<Action, Memory>
    ensures { IfOk result (λ action. action ≡ initialiser_in names.now name.now value.now) }
{
    let target = Target {
        op: None,
        place: SlotPlace {
            slot: names.binding(name.as_str()).slot,
            subscript: None,
        },
    };
    Ok(Action::Assign(target, code_in(alloc, names, value)?))
}
