//! The plan of a step that leaves a body.

ghost use Rattle.std.specs.Prelude.{◌≡◌, ◌<◌, length};
ghost use Rattle.cilk_machine_plan.specs.nodes.Areas.{cells_of};
ghost use Rattle.cilk_machine_plan.specs.nodes.Table.{node_of};
ghost use Rattle.cilk_machine_plan.specs.nodes.Bodies.{body_of};
ghost use Rattle.cilk_machine_plan.specs.frame.Frames.{depth, top_of, left};
ghost use Rattle.cilk_machine_plan.specs.StepInput.{id_of, cells_by};
ghost use Rattle.cilk_machine_step.specs.Scenes.{input_of};
ghost use Rattle.cilk_machine_plan.specs.Made.{given, answered, answered_at, target_of_node, is_function_body};

use crate::scene::Scene;
use cilk_load::{Action, Loaded, Node, Owner, Slots};
use cilk_machine_plan::{Await, Plan, Reached, TrapKind, combined, held};

/// A body is left with a value: that of the procedure, of a C function, of an inlet (C 1990, 6.6.6.4).
pub(crate) fn given(scene: &Scene, n: u32, node: &Node, value: i32) -> Plan
    requires { id_of (input_of scene.now) < length (input_of scene.now).nodes }
    ensures { result ≡ given (input_of scene.now) n node.now value }
{
    if scene.is_outer() {
        Plan::Return { n, value }
    } else if is_function_body(scene.loaded, node.body) {
        answered(scene, n, value)
    } else {
        Plan::Leave { n }
    }
}

/// Whether a body is that of a C function.
pub(crate) fn is_function_body(loaded: &Loaded, body: u32) -> bool
    ensures { result ≡ is_function_body (body_of loaded.now body) }
{
    match loaded.body(body) {
        None => false,
        Some(body) => matches!(body.owner, Owner::Function(_)),
    }
}

// A C function is left: the place of its call, if it has one, is read now.
fn answered(scene: &Scene, n: u32, value: i32) -> Plan
    requires there { id_of (input_of scene.now) < length (input_of scene.now).nodes }
    requires inner { 1 < depth (input_of scene.now).frame }
    ensures { result ≡ answered (input_of scene.now) n value (top_of (input_of scene.now).frame).awaits }
{
    match scene.frame.awaits() {
        None => Plan::Leave { n },
        Some(awaits) => answered_at(scene, n, value, awaits),
    }
}

fn answered_at(scene: &Scene, n: u32, value: i32, awaits: Await) -> Plan
    requires there { id_of (input_of scene.now) < length (input_of scene.now).nodes }
    requires inner { 1 < depth (input_of scene.now).frame }
    ensures { result ≡ answered_at (input_of scene.now) n value awaits.index (target_of_node (node_of (input_of scene.now).program awaits.n)) }
{
    match scene.loaded.statement(awaits.n) {
        None => Plan::Leave { n },
        Some(node) => match &node.action {
            Action::Call(Some(target), _, _) => {
                let slot = target.place.slot;
                let old = held(&lent_to_caller(scene), slot, awaits.index);
                match combined(target.op, old, value) {
                    Err(trap) => Plan::Trap {
                        kind: TrapKind::Value(trap),
                        n,
                    },
                    Ok(value) => Plan::Answer {
                        n,
                        reached: Reached {
                            slot,
                            index: awaits.index,
                        },
                        value,
                    },
                }
            }
            _ => Plan::Leave { n },
        },
    }
}

// The cells that the activation below the top one sees.
fn lent_to_caller<'a>(scene: &Scene<'a>) -> Slots<'a>
    requires there { id_of (input_of scene.now) < length (input_of scene.now).nodes }
    requires inner { 1 < depth (input_of scene.now).frame }
    ensures { cells_of result ≡ cells_by (input_of scene.now) (left (input_of scene.now).frame) }
{
    Slots {
        own: scene.frame.cells(scene.frame.depth() - 2),
        outer: scene.frame.cells(0),
        globals: scene.globals.as_slice(),
        synched: scene.tree.is_synched(scene.frame.id()),
    }
}
