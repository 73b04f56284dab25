//! Which locks an instance holds.

ghost use Rattle.std.specs.Prelude.{◌≡◌, IfOk};
ghost use Rattle.cilk_machine_step.specs.Scenes.{input_of};
ghost use Rattle.cilk_machine_step.specs.Shown.{held, held_from};

use crate::scene::{Scene, is_held_by};
use cilk_load::Memory;
use cilk_machine_plan::{Id, Lock};
use std::alloc::Global;

/// The locks that the instance of a frame holds, by their numbers from 0 on.
pub fn locks_in(alloc: Global, scene: &Scene) -> Result<Vec<usize>, Memory>
    ensures { IfOk result (λ locks. locks.items ≡ held (input_of scene.now)) }
{
    held_by(alloc, scene.frame.id(), scene.locks.as_slice())
}

fn held_by(alloc: Global, id: Id, locks: &[Lock]) -> Result<Vec<usize>, Memory>
    ensures { IfOk result (λ held. held.items ≡ held_from 0 id locks.now) }
{
    let mut held = Vec::new(alloc);
    for n in 0..locks.len() {
        if is_held_by(id, locks[n]) {
            held.push(n)?;
        }
    }
    Ok(held)
}
