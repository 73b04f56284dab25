//! `plan_step`: the plan of the step that an instance takes.

ghost use Rattle.std.specs.Prelude.{◌≡◌, ◌<◌, length, IfOk};
ghost use Rattle.cilk_machine_plan.specs.StepInput.{id_of};
ghost use Rattle.cilk_machine_plan.specs.Made.{aborted, planned};
ghost use Rattle.cilk_machine_step.specs.Scenes.{input_of, HeadFits};

use crate::act::act;
use crate::coming::{Coming, comes_next};
use crate::delivery::taken;
use crate::scene::Scene;
use cilk_load::Memory;
use cilk_machine_plan::Plan;
use std::alloc::Global;

/// The plan of the step of the instance of a frame.
pub fn plan_step(alloc: Global, scene: &Scene) -> Result<Plan, Memory>
    requires there { id_of (input_of scene.now) < length (input_of scene.now).nodes }
    requires fits { HeadFits (input_of scene.now) }
    ensures { IfOk result (λ plan. plan ≡ planned (input_of scene.now)) }
{
    match comes_next(scene) {
        Coming::End => Ok(ended(scene)),
        Coming::Nothing => Ok(Plan::Wait),
        Coming::Delivery(delivery) => taken(alloc, scene, delivery),
        Coming::Act(n, node) => act(alloc, scene, n, node),
    }
}

// An aborted instance waits for its children, and then ends.
fn ended(scene: &Scene) -> Plan
    requires { id_of (input_of scene.now) < length (input_of scene.now).nodes }
    ensures { result ≡ aborted (input_of scene.now) }
{
    if scene.tree.has_live_child(scene.frame.id()) {
        Plan::Park
    } else {
        Plan::End
    }
}
