//! Which cells an action reads and writes, and the value that is taken or given back.

ghost use Rattle.std.specs.Prelude.{◌≡◌, ◌<◌, ◌++◌, ◌&&◌, length, OnOk};
ghost use Rattle.cilk_machine_plan.specs.nodes.Table.{node_of};
ghost use Rattle.cilk_machine_plan.specs.nodes.Areas.{cells_of, sizes_of};
ghost use Rattle.cilk_machine_plan.specs.effects.Effects.{index_of};
ghost use Rattle.cilk_machine_plan.specs.effects.Fits.{FitsAct, FitsPlace};
ghost use Rattle.cilk_machine_plan.specs.frame.Frames.{top_of};
ghost use Rattle.cilk_machine_plan.specs.Made.{target_of_node};
ghost use Rattle.cilk_machine_plan.specs.StepInput.{cells_in, id_of};
ghost use Rattle.cilk_machine_step.specs.Scenes.{input_of};
ghost use Rattle.cilk_machine_step.specs.Shown.{act_reads, act_updates, acted, awaited_at, by_leaving, env_in, reads_of, taken, update_at};
ghost use Rattle.cilk_machine_step.specs.CellWords.{told};

use crate::access::{Access, Spot};
use crate::leaving::is_function_body;
use crate::reading::push_action;
use crate::scene::Scene;
use crate::spotting::{push_read_cells, push_update};
use cilk_load::{Action, Memory, Node, SlotPlace, Slots, Target, Trap};
use cilk_machine_plan::{Await, Reached, Receiver, eval, leaves};
use std::alloc::Global;

/// Adds what an action does.
pub(crate) fn push_acted(
    alloc: Global,
    accesses: &mut Vec<Access>,
    scene: &Scene,
    node: &Node,
) -> Result<(), Memory>
    requires there { id_of (input_of scene.now) < length (input_of scene.now).nodes }
    requires fits { FitsAct (sizes_of (cells_in (input_of scene.now))) node.now.action }
    ensures { OnOk result (told (input_of scene.now) accesses.new.items
        ≡ told (input_of scene.now) accesses.old.items ++ acted (input_of scene.now) node.now) }
{
    push_act_reads(alloc, accesses, scene, &node.action)?;
    push_act_updates(accesses, scene, &node.action)?;
    push_leaving(accesses, scene, node)
}

// What its expressions read.
fn push_act_reads(
    alloc: Global,
    accesses: &mut Vec<Access>,
    scene: &Scene,
    action: &Action,
) -> Result<(), Memory>
    requires there { id_of (input_of scene.now) < length (input_of scene.now).nodes }
    requires fits { FitsAct (sizes_of (cells_in (input_of scene.now))) action.now }
    ensures { OnOk result (told (input_of scene.now) accesses.new.items
        ≡ told (input_of scene.now) accesses.old.items ++ reads_of (input_of scene.now) (act_reads (env_in (input_of scene.now)) action.now)) }
{
    let mut reads = Vec::new(alloc);
    match push_action(&mut reads, &scene.lent(), action) {
        Err(memory) => Err(memory),
        Ok(()) => push_read_cells(accesses, scene, reads.as_slice()),
    }
}

// What it writes behind them.
fn push_act_updates(
    accesses: &mut Vec<Access>,
    scene: &Scene,
    action: &Action,
) -> Result<(), Memory>
    requires there { id_of (input_of scene.now) < length (input_of scene.now).nodes }
    requires fits { FitsAct (sizes_of (cells_in (input_of scene.now))) action.now }
    ensures { OnOk result (told (input_of scene.now) accesses.new.items
        ≡ told (input_of scene.now) accesses.old.items ++ act_updates (input_of scene.now) action.now) }
{
    match action {
        Action::Assign(target, _) => push_assigned(accesses, scene, target),
        Action::Print(_, _) => {
            accesses.push(Access {
                at: Spot::Output,
                writes: true,
            })?;
            Ok(())
        }
        _ => Ok(()),
    }
}

fn push_assigned(accesses: &mut Vec<Access>, scene: &Scene, target: &Target) -> Result<(), Memory>
    requires there { id_of (input_of scene.now) < length (input_of scene.now).nodes }
    requires fits { FitsPlace (sizes_of (cells_in (input_of scene.now))) target.now.place }
    ensures { OnOk result (told (input_of scene.now) accesses.new.items
        ≡ told (input_of scene.now) accesses.old.items
        ++ update_at (input_of scene.now) target.now.op target.now.place.slot (index_of (cells_in (input_of scene.now)) target.now.place)) }
{
    let slot = target.place.slot;
    match index_of(&scene.lent(), &target.place) {
        Err(_) => Ok(()),
        Ok(index) => push_update(
            accesses,
            scene,
            scene.is_outer(),
            target.op,
            Reached { slot, index },
        ),
    }
}

// The index of the cell that a place is: its subscript, whose range is tested (C 1990, 6.3.2.1).
fn index_of(slots: &Slots, place: &SlotPlace) -> Result<u32, Trap>
    requires { FitsPlace (sizes_of (cells_of slots.now)) place.now }
    ensures { result ≡ index_of (cells_of slots.now) place.now }
{
    match &place.subscript {
        None => Ok(0),
        Some(code) => match u32::try_from(eval(slots, code)?) {
            Ok(index) if index < place.slot.length => Ok(index),
            _ => Err(Trap::Index),
        },
    }
}

// The caller's cell takes the value of the C function that is left.
fn push_leaving(accesses: &mut Vec<Access>, scene: &Scene, node: &Node) -> Result<(), Memory>
    requires { id_of (input_of scene.now) < length (input_of scene.now).nodes }
    ensures { OnOk result (told (input_of scene.now) accesses.new.items
        ≡ told (input_of scene.now) accesses.old.items ++ by_leaving (input_of scene.now) node.now) }
{
    if leaves(&node.action) && is_function_body(scene.loaded, node.body) {
        match scene.frame.awaits() {
            None => Ok(()),
            Some(awaits) => push_awaited(accesses, scene, awaits),
        }
    } else {
        Ok(())
    }
}

fn push_awaited(accesses: &mut Vec<Access>, scene: &Scene, awaits: Await) -> Result<(), Memory>
    requires { id_of (input_of scene.now) < length (input_of scene.now).nodes }
    ensures { OnOk result (told (input_of scene.now) accesses.new.items
        ≡ told (input_of scene.now) accesses.old.items
        ++ awaited_at (input_of scene.now) awaits.index (target_of_node (node_of (input_of scene.now).program awaits.n))) }
{
    match scene.loaded.statement(awaits.n) {
        None => Ok(()),
        Some(node) => match &node.action {
            Action::Call(Some(target), _, _) => push_update(
                accesses,
                scene,
                scene.frame.depth() == 2,
                target.op,
                Reached {
                    slot: target.place.slot,
                    index: awaits.index,
                },
            ),
            _ => Ok(()),
        },
    }
}

/// Adds what takes the value of a child.
pub(crate) fn push_taken(
    accesses: &mut Vec<Access>,
    scene: &Scene,
    receiver: &Receiver,
) -> Result<(), Memory>
    requires { id_of (input_of scene.now) < length (input_of scene.now).nodes }
    ensures { OnOk result (told (input_of scene.now) accesses.new.items
        ≡ told (input_of scene.now) accesses.old.items ++ taken (input_of scene.now) receiver.now) }
{
    match receiver {
        Receiver::Nothing | Receiver::Call { .. } => Ok(()),
        Receiver::Place {
            op,
            slot,
            index,
            ..
        } => push_update(
            accesses,
            scene,
            scene.is_outer(),
            *op,
            Reached {
                slot: *slot,
                index: *index,
            },
        ),
    }
}
