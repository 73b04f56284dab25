//! Which cells the next step of an instance reads and writes.

ghost use Rattle.std.specs.Prelude.{◌≡◌, ◌<◌, ◌++◌, length, IfOk, OnOk};
ghost use Rattle.cilk_machine_plan.specs.StepInput.{id_of};
ghost use Rattle.cilk_machine_step.specs.Scenes.{HeadFits, input_of};
ghost use Rattle.cilk_machine_step.specs.Shown.{touched};
ghost use Rattle.cilk_machine_step.specs.CellWords.{told};

use crate::access::Access;
use crate::act::at_boundary;
use crate::scene::Scene;
use crate::touching::{push_acted, push_taken};
use cilk_load::{Memory, Node};
use cilk_machine_plan::Receiver;
use std::alloc::Global;

/// The cells that the next step of the instance of a frame reads and writes, from left to right, those that nobody else sees left out.
pub fn accesses_in(alloc: Global, scene: &Scene) -> Result<Vec<Access>, Memory>
    requires there { id_of (input_of scene.now) < length (input_of scene.now).nodes }
    requires fits { HeadFits (input_of scene.now) }
    ensures { IfOk result (λ accesses. told (input_of scene.now) accesses.items ≡ touched (input_of scene.now)) }
{
    let mut accesses = Vec::new(alloc);
    match push_next(alloc, &mut accesses, scene) {
        Err(memory) => {
            drop(accesses);
            Err(memory)
        }
        Ok(()) => Ok(accesses),
    }
}

// This and `number_in` go the way of `comes_next` again: no clause of that says which cells are touched, and where it finds a delivery, or nothing, it does
// not tell at which number the instance stands. It is a part of each light step, and tells no more than that needs.
fn push_next(alloc: Global, accesses: &mut Vec<Access>, scene: &Scene) -> Result<(), Memory>
    requires there { id_of (input_of scene.now) < length (input_of scene.now).nodes }
    requires fits { HeadFits (input_of scene.now) }
    ensures { OnOk result (told (input_of scene.now) accesses.new.items
        ≡ told (input_of scene.now) accesses.old.items ++ touched (input_of scene.now)) }
{
    let id = scene.frame.id();
    if scene.tree.is_aborted(id) {
        return Ok(());
    }
    let n = scene.frame.node(scene.frame.depth() - 1);
    match scene.loaded.statement(n) {
        None => Ok(()),
        Some(node) => {
            if at_boundary(scene, node) {
                match scene.tree.first_delivery(id) {
                    None => push_acted(alloc, accesses, scene, node),
                    Some(delivery) => push_taken(accesses, scene, &delivery.receiver),
                }
            } else {
                push_acted(alloc, accesses, scene, node)
            }
        }
    }
}

/// The number of the action that the instance acts next, or of the spawn whose value it takes. 0 where it ends.
pub fn number_in(scene: &Scene) -> u32
    requires { id_of (input_of scene.now) < length (input_of scene.now).nodes }
{
    let id = scene.frame.id();
    if scene.tree.is_aborted(id) {
        return 0;
    }
    let n = scene.frame.node(scene.frame.depth() - 1);
    match scene.loaded.statement(n) {
        None => n,
        Some(node) => {
            if at_boundary(scene, node) {
                match scene.tree.first_delivery(id) {
                    None => n,
                    Some(delivery) => number_of(&delivery.receiver, n),
                }
            } else {
                n
            }
        }
    }
}

// The number of the spawn whose value is taken, or this one.
fn number_of(receiver: &Receiver, n: u32) -> u32 {
    match receiver {
        Receiver::Nothing => n,
        Receiver::Place { spawn, .. } => *spawn,
        Receiver::Call { n, .. } => *n,
    }
}
