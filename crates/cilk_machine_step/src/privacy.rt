//! Whether a step touches nothing that others see.

ghost use Rattle.std.specs.Prelude.{◌≡◌, ◌<◌, ◌&&◌, length, IfOk};
ghost use Rattle.cilk_machine_plan.specs.nodes.Areas.{sizes_of};
ghost use Rattle.cilk_machine_plan.specs.StepInput.{id_of, cells_in};
ghost use Rattle.cilk_machine_plan.specs.frame.Frames.{top_of};
ghost use Rattle.cilk_machine_plan.specs.effects.Fits.{FitsAct};
ghost use Rattle.cilk_machine_plan.specs.Made.{acted};
ghost use Rattle.cilk_machine_step.specs.Scenes.{input_of, HeadFits};
ghost use Rattle.cilk_machine_step.specs.Private.{owns};
ghost use Rattle.cilk_machine_step.specs.Owned.{is_own, owns_act, owns_awaited, owns_node, owns_place, is_acting, is_private};

use crate::act::{act, at_boundary};
use crate::coming::{Coming, comes_next};
use crate::scene::Scene;
use cilk_load::{Action, Area, Code, CodeNode, Memory, Node, Slot, SlotPlace};
use cilk_machine_plan::{Plan, leaves};
use std::alloc::Global;

/// Whether the step of the instance of a frame touches nothing that others see: an assignment, a test, a jump, or the end of a C function or
/// an inlet, which reads and writes no variable of the top level, does not read `SYNCHED`, is between no two threads, and is not trapped.
pub fn is_private(alloc: Global, scene: &Scene) -> Result<bool, Memory>
    requires there { id_of (input_of scene.now) < length (input_of scene.now).nodes }
    requires fits { HeadFits (input_of scene.now) }
    ensures { IfOk result (λ private. private ≡ is_private (input_of scene.now)) }
{
    match comes_next(scene) {
        Coming::End | Coming::Nothing | Coming::Delivery(_) => Ok(false),
        Coming::Act(n, node) => acts_privately(alloc, scene, n, node),
    }
}

// The same of an instance that acts the node of its top activation, whose number is n.
fn acts_privately(alloc: Global, scene: &Scene, n: u32, node: &Node) -> Result<bool, Memory>
    requires there { id_of (input_of scene.now) < length (input_of scene.now).nodes }
    requires fits { FitsAct (sizes_of (cells_in (input_of scene.now))) node.now.action }
    ensures { IfOk result (λ private. private ≡ owns_node (input_of scene.now) node.now && is_acting (acted (input_of scene.now) n node.now)) }
{
    if !owns_node(scene, node) {
        return Ok(false);
    }
    match act(alloc, scene, n, node) {
        Err(memory) => Err(memory),
        Ok(plan) => Ok(is_acting(&plan)),
    }
}

// Whether the action has places of its instance alone, and no inlet may run before it.
fn owns_node(scene: &Scene, node: &Node) -> bool
    ensures { result ≡ owns_node (input_of scene.now) node.now }
{
    !at_boundary(scene, node)
        && owns_act(&node.action)
        && (!leaves(&node.action) || owns_awaited(scene))
}

fn owns_act(action: &Action) -> bool
    ensures { result ≡ owns_act action.now }
{
    match action {
        Action::Assign(target, code) => owns_place(&target.place) && owns(code),
        Action::Test(code) | Action::Return(code) => owns(code),
        Action::Null | Action::Break | Action::Continue | Action::ReturnNothing | Action::Close =>
            true,
        _ => false,
    }
}

fn owns_place(place: &SlotPlace) -> bool
    ensures { result ≡ owns_place place.now }
{
    match &place.subscript {
        None => is_own(place.slot),
        Some(subscript) => is_own(place.slot) && owns(subscript),
    }
}

// Whether what takes the value of the top activation is a place of its instance, if anything takes it.
fn owns_awaited(scene: &Scene) -> bool
    ensures { result ≡ owns_awaited (input_of scene.now).program (top_of (input_of scene.now).frame).awaits }
{
    match scene.frame.awaits() {
        None => true,
        Some(awaits) => match scene.loaded.statement(awaits.n) {
            None => true,
            Some(node) => match &node.action {
                Action::Call(Some(target), _, _) => is_own(target.place.slot),
                _ => true,
            },
        },
    }
}

#[cycle(owns)]
fn owns(code: &Code) -> bool
    ensures { result ≡ owns is_own code.now }
{
    match &code.node {
        CodeNode::Number(_) => true,
        CodeNode::Variable(slot) => is_own(*slot),
        CodeNode::Element(slot, subscript) => is_own(*slot) && owns(subscript),
        CodeNode::Synched => false,
        CodeNode::Unary(_, operand) => owns(operand),
        CodeNode::Binary(_, left, right) => owns(left) && owns(right),
        CodeNode::Choose(test, first, second) => owns(test) && owns(first) && owns(second),
    }
}

fn is_own(slot: Slot) -> bool
    ensures { result ≡ is_own slot }
{
    match slot.area {
        Area::Own | Area::Outer => true,
        Area::Global => false,
    }
}

// Whether an action is acted by the plan.
fn is_acting(plan: &Plan) -> bool
    ensures { result ≡ is_acting plan.now }
{
    matches!(
        plan,
        Plan::Go { .. }
            | Plan::Write { .. }
            | Plan::Call { .. }
            | Plan::Leave { .. }
            | Plan::Answer { .. }
            | Plan::Print { .. }
            | Plan::TurnLock { .. }
            | Plan::Abort { .. }
    )
}
