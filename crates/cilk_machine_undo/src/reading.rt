//! What stands in a frame and beside it, read before a step.

ghost use Rattle.std.specs.Prelude.{◌≡◌, ◌<◌, ◌≤◌, true, Some, length, slice_index_or, IfOk};
ghost use Rattle.cilk_machine_plan.specs.spawn.Nodes.{node_at, is_live};
ghost use Rattle.cilk_machine_plan.specs.agree.declared.lock.Lock.TheVariants as lock;
ghost use Rattle.cilk_machine_plan.specs.model.Hands.{IsWorker, hand_of};
ghost use Rattle.cilk_machine_plan.specs.frame.Frames.{depth, top_of, left};
ghost use Rattle.cilk_machine_plan.specs.Ready.{frame_in};
ghost use Rattle.cilk_machine_undo.specs.Frames.{held_at};
ghost use Rattle.cilk_machine_undo.specs.Records.{taken_of, is_sent};
ghost use Rattle.cilk_machine_undo.specs.Words.{family_by};

use crate::undo::Stood;
use cilk_machine_plan::{
    Frame, Hands, Id, Lock, NoMemory, Reached, Receiver, Slots, Taken, Tree, held,
};

/// How many activations the frame in the worker's hand has.
pub fn depth_in_hand(worker: u8, hands: &Hands) -> u32
    requires worker { IsWorker hands.now worker }
    requires held { hand_of hands.now worker ≡ Some (frame_in hands.now worker) }
    ensures some { 0 < depth (frame_in hands.now worker) }
    ensures limit { depth (frame_in hands.now worker) ≤ 256 }
{
    match hands.hand(worker) {
        None => unreachable!(),
        Some(frame) => frame.depth(),
    }
}

/// Where the frame stands.
pub(crate) fn stood_in(worker: u8, frame: &Frame) -> Stood
    ensures node { result.node ≡ (top_of frame.now).node }
    ensures boundary { result.boundary ≡ frame.now.boundary }
    ensures worker { result.worker ≡ worker }
{
    Stood {
        node: frame.node(frame.depth() - 1),
        boundary: frame.at_boundary(),
        worker,
    }
}

/// What a cell holds that the top activation sees.
pub(crate) fn held_in(frame: &Frame, globals: &[i32], reached: Reached) -> i32
    ensures { result ≡ held_at reached frame.now globals.now }
{
    let slots = Slots {
        own: frame.cells(frame.depth() - 1),
        outer: frame.cells(0),
        globals,
        synched: true,
    };
    held(&slots, reached.slot, reached.index)
}

/// What a cell holds that the activation below the top one sees.
pub(crate) fn held_below(frame: &Frame, globals: &[i32], reached: Reached) -> i32
    requires { 1 < depth frame.now }
    ensures { result ≡ held_at reached (left frame.now) globals.now }
{
    let slots = Slots {
        own: frame.cells(frame.depth() - 2),
        outer: frame.cells(0),
        globals,
        synched: true,
    };
    held(&slots, reached.slot, reached.index)
}

/// The delivery that the instance takes, if one waits, with what has become of its child.
pub(crate) fn next_taken(id: Id, tree: &Tree) -> Result<Option<Taken>, NoMemory>
    requires { id < length tree.now.nodes }
    ensures { IfOk result (λ taken. family_by taken ≡ taken_of id tree.now.nodes) }
{
    // Brings its clauses into the proof.
    let _id = tree.next_id();
    match tree.first_delivery(id) {
        None => Ok(None),
        Some(delivery) => {
            let fate = tree.fate(delivery.child);
            match delivery.copy() {
                Err(_) => Err(NoMemory),
                Ok(delivery) => Ok(Some(Taken { id, delivery, fate })),
            }
        }
    }
}

/// Whether the value of the instance will go to its parent.
pub(crate) fn is_sent(id: Id, tree: &Tree) -> bool
    requires { is_live (node_at tree.now.nodes id) ≡ true }
    ensures { result ≡ is_sent tree.now.nodes id }
{
    let takes = match tree.receiver(id) {
        Receiver::Nothing => false,
        Receiver::Place { .. } => true,
        Receiver::Call { .. } => true,
    };
    takes && !tree.is_aborted(id)
}

/// The state of a lock.
pub(crate) fn lock_at(locks: &[Lock], at: u32) -> Lock
    ensures { result ≡ slice_index_or locks.now at lock.Unset }
{
    match locks.get(at as usize) {
        None => Lock::Unset,
        Some(lock) => *lock,
    }
}
