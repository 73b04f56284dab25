//! What is written to, and assignments and calls.

ghost use Rattle.std.specs.Prelude.{◌≡◌, IfOk, option_map};
ghost use Rattle.cilk_tree_syntax.specs.Tree as tree;
ghost use Rattle.cilk_load.specs.Acts.{place_in, target_in, move_in};

use crate::code::{code_in, codes_in, option_code_in};
use crate::symbol_table::SymbolTable;
use cilk_load_nodes::{Action, Code, CodeNode, SlotPlace, Target};
use cilk_tree_syntax as tree;
use cilk_tree_syntax::{Adjustment, Expr, Memory, Move, MoveNode, Word};
use std::alloc::Global;

fn place_in(alloc: Global, names: &SymbolTable, place: &tree::Place) -> Result<SlotPlace, Memory>
    ensures { IfOk result (λ p. p ≡ place_in names.now place.now) }
{
    let subscript = option_code_in(alloc, names, &place.index)?;
    Ok(SlotPlace {
        slot: names.binding(place.name.as_str()).slot,
        subscript,
    })
}

pub(crate) fn target_in(
    alloc: Global,
    names: &SymbolTable,
    target: &tree::Target,
) -> Result<Target, Memory>
    ensures { IfOk result (λ t. t ≡ target_in names.now target.now) }
{
    let place = place_in(alloc, names, &target.place)?;
    Ok(Target {
        op: target.op,
        place,
    })
}

fn option_target_in(
    alloc: Global,
    names: &SymbolTable,
    target: &Option<tree::Target>,
) -> Result<Option<Target>, Memory>
    ensures { IfOk result (λ t. t ≡ option_map (target_in names.now) target.now) }
{
    match target {
        None => Ok(None),
        Some(target) => Ok(Some(target_in(alloc, names, target)?)),
    }
}

fn assign_in(
    alloc: Global,
    names: &SymbolTable,
    target: &tree::Target,
    value: &Expr,
) -> Result<Action, Memory>
    ensures { IfOk result (λ action. action ≡ move_in names.now (tree.assign target.now value.now)) }
{
    let target = target_in(alloc, names, target)?;
    Ok(Action::Assign(target, code_in(alloc, names, value)?))
}

fn adjust_in(
    alloc: Global,
    names: &SymbolTable,
    place: &tree::Place,
    by: Adjustment,
) -> Result<Action, Memory>
    ensures { IfOk result (λ action. action ≡ move_in names.now (tree.adjust place.now by)) }
{
    let target = Target {
        op: Some(by.operator()),
        place: place_in(alloc, names, place)?,
    };
    let one = Code {
        node: CodeNode::Number(1),
    };
    Ok(Action::Assign(target, one))
}

fn call_in(
    alloc: Global,
    names: &SymbolTable,
    target: &Option<tree::Target>,
    callee: &Word,
    arguments: &[Expr],
) -> Result<Action, Memory>
    ensures { IfOk result (λ action. action ≡ move_in names.now (tree.call target.now callee.now arguments.now)) }
{
    let target = option_target_in(alloc, names, target)?;
    let callee = names.binding(callee.as_str()).number;
    Ok(Action::Call(target, callee, codes_in(alloc, names, arguments)?))
}

/// An assignment, `++`, `--` or a call.
pub fn move_in(alloc: Global, names: &SymbolTable, what: &Move) -> Result<Action, Memory>
    ensures { IfOk result (λ action. action ≡ move_in names.now what.now) }
{
    match &what.node {
        MoveNode::Assign(target, value) => assign_in(alloc, names, target, value),
        MoveNode::Adjust(place, by) => adjust_in(alloc, names, place, *by),
        MoveNode::Call(target, callee, arguments) => {
            call_in(alloc, names, target, callee, arguments)
        }
    }
}
