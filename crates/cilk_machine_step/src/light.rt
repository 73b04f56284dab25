//! `plan_lightly`: the plan of a step that takes no memory, and after which the instance goes on in the same hand.

ghost use Rattle.std.specs.Prelude.{◌≡◌, ◌<◌, ℕ, true, length, Ok, IfOk, IfSome};
ghost use Rattle.cilk_machine_plan.specs.nodes.Areas.{sizes_of, cells_of};
ghost use Rattle.cilk_machine_plan.specs.effects.Effects.{effect_in};
ghost use Rattle.cilk_machine_plan.specs.eval.declared.effect.Effect.TheVariants.{Gives};
ghost use Rattle.cilk_machine_plan.specs.effects.Fits.{FitsAct};
ghost use Rattle.cilk_machine_plan.specs.StepInput.{id_of, cells_in};
ghost use Rattle.cilk_machine_plan.specs.Made.{acted, ends_thread, given, leaves, taken_by, planned};
ghost use Rattle.cilk_machine_plan.specs.Words.{plan_of};
ghost use Rattle.cilk_machine_step.specs.Scenes.{input_of, HeadFits};

use crate::act::{ends_thread, next_of};
use crate::coming::{Coming, comes_next};
use crate::leaving::given;
use crate::scene::Scene;
use cilk_load::{Action, Node, Slots, Trap};
use cilk_machine_plan::{
    Delivery, Light, Plan, Reached, Receiver, assigned, eval, leaves, received,
};

/// The plan of the step of the instance of a frame, where it is a light one that is soon made: an assignment, a test, a
/// jump, the end of a C function, or a value that is taken into a place. None tells nothing.
#[inline(always)]
pub fn plan_lightly(scene: &Scene) -> Option<Light>
    requires there { id_of (input_of scene.now) < length (input_of scene.now).nodes }
    requires fits { HeadFits (input_of scene.now) }
    ensures { IfSome result (λ light. plan_of light ≡ planned (input_of scene.now)) }
{
    match comes_next(scene) {
        Coming::End | Coming::Nothing => None,
        Coming::Delivery(delivery) => take_lightly(scene, delivery),
        Coming::Act(n, node) => act_lightly(scene, n, node),
    }
}

// The instance acts the node of its top activation, whose number is n.
#[inline(always)]
fn act_lightly(scene: &Scene, n: u32, node: &Node) -> Option<Light>
    requires there { id_of (input_of scene.now) < length (input_of scene.now).nodes }
    requires fits { FitsAct (sizes_of (cells_in (input_of scene.now))) node.now.action }
    ensures { IfSome result (λ light. plan_of light ≡ acted (input_of scene.now) n node.now) }
{
    let slots = scene.lent();
    match &node.action {
        Action::Assign(target, code) => match assigned(&slots, target, code) {
            Err(_) => None,
            Ok(written) => Some(Light::Write {
                n,
                reached: written.reached,
                value: written.value,
                to: next_of(node, 1),
            }),
        },
        Action::Test(code) => match eval(&slots, code) {
            Err(_) => None,
            Ok(value) => Some(Light::Go {
                n,
                to: next_of(node, value),
            }),
        },
        Action::Null | Action::Break | Action::Continue => Some(Light::Go {
            n,
            to: next_of(node, 1),
        }),
        action if leaves(action) => leave_lightly(scene, &slots, n, node),
        _ => None,
    }
}

// The same, where the action leaves its body.
#[tactic(auto, using(crate::proofs::Ways::leaves_by))]
#[inline(always)]
fn leave_lightly(scene: &Scene, slots: &Slots, n: u32, node: &Node) -> Option<Light>
    requires there { id_of (input_of scene.now) < length (input_of scene.now).nodes }
    requires fits { FitsAct (sizes_of (cells_in (input_of scene.now))) node.now.action }
    requires slots { cells_of slots.now ≡ cells_in (input_of scene.now) }
    requires leaves { leaves node.now.action ≡ true }
    ensures { IfSome result (λ light. plan_of light ≡ acted (input_of scene.now) n node.now) }
{
    if ends(*scene, node) {
        return None;
    }
    match answer(slots, &node.action) {
        Err(_) => None,
        Ok(value) => lightened(left(*scene, n, node, value)),
    }
}

// The scene of these two is a copy, so that the one of other steps need not stand in memory.

// Whether a thread ends there.
#[inline(never)]
fn ends(scene: Scene, node: &Node) -> bool
    ensures { result ≡ ends_thread (input_of scene.entry) node.now }
{
    ends_thread(&scene, node)
}

// A body is left with a value.
#[inline(never)]
fn left(scene: Scene, n: u32, node: &Node, value: i32) -> Plan
    requires { id_of (input_of scene) < length (input_of scene).nodes }
    ensures { result ≡ given (input_of scene.entry) n node.now value }
{
    given(&scene, n, node, value)
}

// The value with which an action leaves its body.
#[inline(always)]
fn answer(slots: &Slots, action: &Action) -> Result<i32, Trap>
    requires { FitsAct (sizes_of (cells_of slots.now)) action.now }
    ensures { IfOk result (λ value. (n : ℕ) → leaves action.now ≡ true → effect_in (cells_of slots.now) n action.now ≡ Ok (Gives value)) }
{
    match action {
        Action::Return(code) => eval(slots, code),
        _ => Ok(0),
    }
}

// The plan, where a C function is left by it.
#[inline(always)]
fn lightened(plan: Plan) -> Option<Light>
    ensures { IfSome result (λ light. plan_of light ≡ plan) }
{
    match plan {
        Plan::Leave { n } => Some(Light::Leave { n }),
        Plan::Answer { n, reached, value } => Some(Light::Answer { n, reached, value }),
        _ => None,
    }
}

// The delivery is taken, if a place takes it.
#[inline(always)]
fn take_lightly(scene: &Scene, delivery: &Delivery) -> Option<Light>
    requires { id_of (input_of scene.now) < length (input_of scene.now).nodes }
    ensures { IfSome result (λ light.
        plan_of light ≡ taken_by (input_of scene.now) delivery.now.child delivery.now.value delivery.now.receiver) }
{
    match &delivery.receiver {
        Receiver::Place {
            op,
            slot,
            index,
            spawn,
        } => match received(&scene.lent(), *op, *slot, *index, delivery.value) {
            Err(_) => None,
            Ok(value) => Some(Light::Take {
                child: delivery.child,
                n: *spawn,
                reached: Reached {
                    slot: *slot,
                    index: *index,
                },
                value,
            }),
        },
        Receiver::Nothing | Receiver::Call { .. } => None,
    }
}
