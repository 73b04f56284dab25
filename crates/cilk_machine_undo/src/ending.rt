//! An instance that ended lives again.

ghost use Rattle.std.specs.Prelude.{◌≡◌, ◌<◌, ℕ, true, Some, None, length, slice_set, OnErr, OnOk};
ghost use Rattle.cilk_machine_plan.specs.model.Hands.{IsWorker, hand_of, with_hand};
ghost use Rattle.cilk_machine_plan.specs.frame.Frames.{Frame};
ghost use Rattle.cilk_machine_plan.specs.spawn.Nodes.{node_at};
ghost use Rattle.cilk_machine_plan.specs.agree.declared.lock.Lock.TheVariants as lock;
ghost use Rattle.cilk_machine_undo.specs.Writes.{all_set};
ghost use Rattle.cilk_machine_undo.specs.Undo.{held_again, asleep, unsent_to};
ghost use Rattle.cilk_machine_undo.specs.Able.{CanPark, CanUnsend, CanLiveOn, CanTakeBack};
ghost use Rattle.cilk_machine_undo.specs.Words.{ended_by, machine_in, IsTakenBack};

use crate::undo::{Ended, Gone};
use cilk_machine_plan::{Frame, Hands, Id, Lock, NoMemory, Parts, Tree};

/// The instance lives again, and its frame is in the hand; a parent that had come to the hand is parked again. Where memory
/// has run out, nothing has changed.
pub(crate) fn ended_back(worker: u8, gone: &mut Gone, parts: &mut Parts) -> Result<(), NoMemory>
    requires { CanTakeBack (ended_by worker gone.old.held.items gone.old.sent gone.old.ended) (machine_in parts.old) }
    ensures ok { OnOk result (IsTakenBack (ended_by worker gone.old.held.items gone.old.sent gone.old.ended) parts.old parts.new) }
    ensures same { OnErr result (machine_in parts.new ≡ machine_in parts.old) }
    ensures living { OnErr result (parts.new.tree.living ≡ parts.old.tree.living) }
    ensures back { OnErr result (ended_by worker gone.new.held.items gone.new.sent gone.new.ended
        ≡ ended_by worker gone.old.held.items gone.old.sent gone.old.ended) }
{
    match gone.ended.take() {
        None => Ok(()),
        Some(ended) => {
            let Ended { frame, remains } = ended;
            match parts.tree.revive(frame.id(), remains) {
                Err(remains) => {
                    gone.ended = Some(Ended { frame, remains });
                    Err(NoMemory)
                }
                Ok(()) => {
                    live_on(worker, frame, gone.held.as_slice(), gone.sent, parts);
                    Ok(())
                }
            }
        }
    }
}

// The instance of this frame lives again, with these locks, and its value was not sent.
fn live_on(worker: u8, frame: Frame, held: &[usize], sent: bool, parts: &mut Parts)
    requires { CanLiveOn worker frame.id sent parts.old.tree.nodes parts.old.hands }
    ensures { machine_in parts.new ≡ record {
      outside = held_again frame.id held.now (machine_in parts.old).outside;
      nodes = unsent_to sent (node_at parts.old.tree.nodes frame.id).parent frame.id
          (asleep (node_at parts.old.tree.nodes frame.id).parent (hand_of parts.old.hands worker) parts.old.tree.nodes);
      places = with_hand parts.old.hands worker (Some frame);
    } }
{
    let id = frame.id();
    sleep(worker, id, &mut parts.tree, &mut parts.hands);
    unsend(sent, id, &mut parts.tree);
    hold(&mut parts.locks, held, id);
    parts.hands.give(worker, frame);
}

// The parent of an instance, where it had come to the hand, is parked again, and the hand is empty.
fn sleep(worker: u8, id: Id, tree: &mut Tree, hands: &mut Hands)
    requires worker { IsWorker hands.old worker }
    requires there { id < length tree.old.nodes }
    requires parks { (r : ℕ) (g : Frame) → (node_at tree.old.nodes id).parent ≡ Some r → hand_of hands.old worker ≡ Some g
        → CanPark tree.old.nodes r g }
    ensures tree { tree.new.nodes ≡ asleep (node_at tree.old.nodes id).parent (hand_of hands.old worker) tree.old.nodes }
    ensures hands { hands.new ≡ with_hand hands.old worker None }
{
    match hands.take(worker) {
        None => {}
        Some(frame) => match tree.parent(id) {
            None => frame.finish(),
            Some(_parent) => tree.park(frame),
        },
    }
}

// The value of an instance does not wait for its parent, if it was sent.
fn unsend(sent: bool, id: Id, tree: &mut Tree)
    requires there { id < length tree.old.nodes }
    requires unsends { sent ≡ true → (p : ℕ) → (node_at tree.old.nodes id).parent ≡ Some p → CanUnsend tree.old.nodes p id }
    ensures { tree.new.nodes ≡ unsent_to sent (node_at tree.old.nodes id).parent id tree.old.nodes }
{
    if sent {
        match tree.parent(id) {
            None => {}
            Some(parent) => tree.unsend(parent, id),
        }
    }
}

// An instance holds these locks.
fn hold(locks: &mut Vec<Lock>, held: &[usize], id: Id)
    ensures { locks.new.items ≡ all_set locks.old.items held.now (lock.Held id) }
{
    for lock in held {
        set_lock(locks, *lock, Lock::Held(id));
    }
}

fn set_lock(locks: &mut Vec<Lock>, at: usize, lock: Lock)
    ensures { locks.new.items ≡ slice_set locks.old.items at lock }
{
    if at < locks.len() {
        locks[at] = lock;
    }
}
