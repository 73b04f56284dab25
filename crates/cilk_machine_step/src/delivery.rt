//! The plan of a step that takes a delivery.

ghost use Rattle.std.specs.Prelude.{◌≡◌, ◌<◌, ◌∷◌, length, IfOk};
ghost use Rattle.cilk_machine_plan.specs.nodes.Table.{node_of};
ghost use Rattle.cilk_machine_plan.specs.StepInput.{id_of};
ghost use Rattle.cilk_machine_step.specs.Scenes.{input_of};
ghost use Rattle.cilk_machine_plan.specs.Made.{taken_by, inlet_of_taker, inlet_of_action, inlet_of_node};

use crate::scene::Scene;
use cilk_load::{Action, Loaded, Memory, Taker};
use cilk_machine_plan::{Arguments, Delivery, Plan, Reached, Receiver, TrapKind, received};
use std::alloc::Global;

/// A delivery is taken: its place is read now, or its inlet starts (Cilk 5.4 manual, `spawn`, `inlet`).
pub(crate) fn taken(alloc: Global, scene: &Scene, delivery: &Delivery) -> Result<Plan, Memory>
    requires { id_of (input_of scene.now) < length (input_of scene.now).nodes }
    ensures { IfOk result (λ plan. plan ≡ taken_by (input_of scene.now) delivery.now.child delivery.now.value delivery.now.receiver) }
{
    match &delivery.receiver {
        Receiver::Nothing => Ok(Plan::Wait),
        Receiver::Place {
            op,
            slot,
            index,
            spawn,
        } => {
            let slots = scene.lent();
            Ok(match received(&slots, *op, *slot, *index, delivery.value) {
                Err(trap) => Plan::Trap {
                    kind: TrapKind::Value(trap),
                    n: *spawn,
                },
                Ok(value) => Plan::Take {
                    child: delivery.child,
                    n: *spawn,
                    reached: Reached {
                        slot: *slot,
                        index: *index,
                    },
                    value,
                },
            })
        }
        Receiver::Call { n, args } => {
            let arguments = arguments_of(alloc, delivery.value, args.as_slice())?;
            Ok(Plan::Enter {
                child: delivery.child,
                n: *n,
                inlet: inlet_of(scene.loaded, *n),
                arguments,
            })
        }
    }
}

// The value of the child, and the others behind it.
fn arguments_of(alloc: Global, value: i32, others: &[i32]) -> Result<Arguments, Memory>
    ensures { IfOk result (λ arguments. arguments ≡ value ∷ others.now) }
{
    let mut values = Vec::with_capacity(alloc, others.len() + 1)?;
    values.push(value)?;
    values.extend_from_slice(others)?;
    Ok(Arguments::new(values))
}

// The inlet of spawn n.
fn inlet_of(loaded: &Loaded, n: u32) -> u32
    ensures { result ≡ inlet_of_node (node_of loaded.now n) }
{
    match loaded.statement(n) {
        None => 0,
        Some(node) => match &node.action {
            Action::Spawn(Taker::Through(inlet, _), _, _) => *inlet,
            _ => 0,
        },
    }
}
