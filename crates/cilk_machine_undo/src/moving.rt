//! What was moved between hands, deques and the tree is put back.

ghost use Rattle.std.specs.Prelude.{◌≡◌, OnErr, OnOk};
ghost use Rattle.cilk_machine_undo.specs.Undo as undo;
ghost use Rattle.cilk_machine_undo.specs.Able.{CanUnpark, CanUnbear, CanPopBack, CanStealBack};
ghost use Rattle.cilk_machine_undo.specs.Words.{machine_in, IsTakenBack};

use crate::undo::Stood;
use cilk_machine_plan::{Id, NoMemory, Parts};

/// The frame of an instance that was parked is in the hand.
pub(crate) fn parked_back(worker: u8, id: Id, parts: &mut Parts)
    requires { CanUnpark worker id (machine_in parts.old) }
    ensures { IsTakenBack (undo.parked worker id) parts.old parts.new }
{
    if let Some(frame) = parts.tree.unpark(id) {
        parts.hands.give(worker, frame);
    }
}

/// The child that was born last, of this parent, was never made, and the parent's frame is in the hand.
pub(crate) fn spawned_back(stood: Stood, id: Id, parts: &mut Parts)
    requires { CanUnbear stood.worker id (machine_in parts.old) }
    ensures { IsTakenBack (undo.spawned stood.worker id stood.node stood.boundary) parts.old parts.new }
{
    let newest = Id::new(parts.tree.next_id().number() - 1);
    parts.tree.unbear(newest, id);
    if let Some(child) = parts.hands.take(stood.worker) {
        child.finish();
    }
    match parts.hands.pop_bottom(stood.worker) {
        None => {}
        Some(mut parent) => {
            parent.stand(stood.node, stood.boundary);
            parts.hands.give(stood.worker, parent);
        }
    }
}

/// The frame in the hand is at the bottom of the deque. Where memory has run out, nothing has changed.
pub(crate) fn popped_back(worker: u8, parts: &mut Parts) -> Result<(), NoMemory>
    requires { CanPopBack worker (machine_in parts.old) }
    ensures ok { OnOk result (IsTakenBack (undo.popped worker) parts.old parts.new) }
    ensures same { OnErr result (machine_in parts.new ≡ machine_in parts.old) }
    ensures living { OnErr result (parts.new.tree.living ≡ parts.old.tree.living) }
{
    match parts.hands.take(worker) {
        None => unreachable!(),
        Some(frame) => match parts.hands.push_bottom(worker, frame) {
            Ok(()) => Ok(()),
            Err(frame) => {
                parts.hands.give(worker, frame);
                Err(NoMemory)
            }
        },
    }
}

/// The frame in the hand is at the top of the victim's deque. Where memory has run out, nothing has changed.
pub(crate) fn stolen_back(worker: u8, victim: u8, parts: &mut Parts) -> Result<(), NoMemory>
    requires { CanStealBack worker victim (machine_in parts.old) }
    ensures ok { OnOk result (IsTakenBack (undo.stolen worker victim) parts.old parts.new) }
    ensures same { OnErr result (machine_in parts.new ≡ machine_in parts.old) }
    ensures living { OnErr result (parts.new.tree.living ≡ parts.old.tree.living) }
{
    match parts.hands.take(worker) {
        None => unreachable!(),
        Some(frame) => match parts.hands.push_top(victim, frame) {
            Ok(()) => Ok(()),
            Err(frame) => {
                parts.hands.give(worker, frame);
                Err(NoMemory)
            }
        },
    }
}
