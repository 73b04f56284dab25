//! What comes next for an instance.

ghost use Rattle.std.specs.Prelude.{◌≡◌, ◌<◌, length};
ghost use Rattle.cilk_machine_plan.specs.StepInput.{id_of};
ghost use Rattle.cilk_machine_plan.specs.Made.{planned};
ghost use Rattle.cilk_machine_step.specs.Scenes.{input_of};
ghost use Rattle.cilk_machine_step.specs.Peeks.{code_in};
ghost use Rattle.cilk_machine_step.specs.Comings.{plan_for, code_for, ActsHead};

use crate::act::at_boundary;
use crate::scene::Scene;
use cilk_load::Node;
use cilk_machine_plan::Delivery;

/// What an instance does next.
#[derive(Clone, Copy)]
pub(crate) enum Coming<'a> {
    /// It was aborted: it waits for its children, and then ends.
    End,
    /// Nothing, since its top activation stands at a number that is no action's; its step waits then. No choices lead a checked program there
    /// (`cilk_laws::heads::each_instance_has_a_head`), but a frame that a caller made may stand anywhere.
    Nothing,
    /// It takes a delivery.
    Delivery(&'a Delivery),
    /// It acts its head, a node of this number.
    Act(u32, &'a Node),
}

/// An aborted instance ends. At a boundary the delivery that waits longest comes before the head (Cilk 5.4 manual, `inlet`, `abort`).
#[inline(always)]
pub(crate) fn comes_next<'a>(scene: &Scene<'a>) -> Coming<'a>
    requires { id_of (input_of scene.now) < length (input_of scene.now).nodes }
    ensures plan { plan_for (input_of scene.now) result ≡ planned (input_of scene.now) }
    ensures code { code_for result ≡ code_in (input_of scene.now) }
    ensures head { ActsHead (input_of scene.now) result }
{
    let id = scene.frame.id();
    if scene.tree.is_aborted(id) {
        return Coming::End;
    }
    // `Frame::node` tells the number of an action, and `Loaded::statement` its node.
    let n = scene.frame.node(scene.frame.depth() - 1);
    match scene.loaded.statement(n) {
        None => Coming::Nothing,
        Some(node) => {
            if at_boundary(scene, node) {
                match scene.tree.first_delivery(id) {
                    None => Coming::Act(n, node),
                    Some(delivery) => Coming::Delivery(delivery),
                }
            } else {
                Coming::Act(n, node)
            }
        }
    }
}
