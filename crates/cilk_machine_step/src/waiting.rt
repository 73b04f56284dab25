//! Whether an instance has to wait for another one.

ghost use Rattle.std.specs.Prelude.{◌≡◌, ◌<◌, length};
ghost use Rattle.cilk_machine_plan.specs.StepInput.{id_of};
ghost use Rattle.cilk_machine_plan.specs.Made.{planned};
ghost use Rattle.cilk_machine_step.specs.Scenes.{input_of, is_wait, takes_nothing, wants_held_lock};

use crate::act::lock_at;
use crate::coming::{Coming, comes_next};
use crate::scene::Scene;
use cilk_load::{Action, LockAction, Node};
use cilk_machine_plan::{Lock, Receiver};

/// Whether the instance of a frame cannot step now, told without memory: another one holds the lock that it wants
/// (Cilk 5.4 manual, locks).
pub fn has_to_wait(scene: &Scene) -> bool
    requires { id_of (input_of scene.now) < length (input_of scene.now).nodes }
    ensures { result ≡ is_wait (planned (input_of scene.now)) }
{
    match comes_next(scene) {
        Coming::End => false,
        Coming::Nothing => true,
        Coming::Delivery(delivery) => takes_nothing(&delivery.receiver),
        Coming::Act(_, node) => wants_held_lock(scene, node),
    }
}

// Whether nothing takes a value.
fn takes_nothing(receiver: &Receiver) -> bool
    ensures { result ≡ takes_nothing receiver.now }
{
    match receiver {
        Receiver::Nothing => true,
        Receiver::Place { .. } | Receiver::Call { .. } => false,
    }
}

// Whether an action is to take a lock that another instance holds.
fn wants_held_lock(scene: &Scene, node: &Node) -> bool
    ensures { result ≡ wants_held_lock (input_of scene.now) node.now.action }
{
    match &node.action {
        Action::Locking(LockAction::Lock, lock) => match lock_at(scene.locks.as_slice(), *lock) {
            Lock::Held(by) => by != scene.frame.id(),
            Lock::Unset | Lock::Free => false,
        },
        _ => false,
    }
}
