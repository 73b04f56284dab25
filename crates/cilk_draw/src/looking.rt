//! What is seen of a worker's next step: what it is to do, with its values.

use crate::glance::Glance;
use cilk_log_replay::{Machine, Memory, Plan, look_ahead, plan_step};
use std::alloc::Global;

/// What is seen of the next step of a worker that has this instance in its hand.
pub(crate) fn glance_at(
    alloc: Global,
    machine: &Machine,
    worker: u8,
    instance: String,
) -> Result<Glance, Memory> {
    let value = value_ahead(alloc, machine, worker)?;
    let plan = plan_ahead(alloc, machine, worker)?;
    Ok(Glance {
        instance,
        plan,
        value,
    })
}

fn plan_ahead(alloc: Global, machine: &Machine, worker: u8) -> Result<Option<Plan>, Memory> {
    match machine.scene_ahead(worker) {
        None => Ok(None),
        Some(scene) => match plan_step(alloc, &scene) {
            Err(memory) => Err(memory),
            Ok(plan) => Ok(Some(plan)),
        },
    }
}

// A plan does not tell what a test comes to.
fn value_ahead(alloc: Global, machine: &Machine, worker: u8) -> Result<Option<i32>, Memory> {
    match machine.scene_ahead(worker) {
        None => Ok(None),
        Some(scene) => match look_ahead(alloc, &scene) {
            Err(memory) => Err(memory),
            Ok(None) => Ok(None),
            Ok(Some(peek)) => match peek.value() {
                Err(_) => Ok(None),
                Ok(value) => Ok(Some(value)),
            },
        },
    }
}
