//! Where the frame of an instance is found: in a hand, in a deque, or parked.

ghost use Rattle.std.specs.Prelude.{◌≡◌, ℕ, true, length, Some, IfSome, option_copied};
ghost use Rattle.cilk_machine_agree.specs.model.Hands.{IsWorker, worker_at, deque_of};
ghost use Rattle.cilk_machine_agree.specs.spawn.Nodes.{node_at, is_live, path_at};
ghost use Rattle.cilk_view.specs.Finding.{frame_among, frame_at, frame_held, frame_live};

use cilk_machine_agree::{Fate, Frame, Hands, Id, Tree};

/// The live instance with this path.
pub(crate) fn find_live(tree: &Tree, path: &[u32]) -> Option<Id>
    ensures found { IfSome result (λ id. (is_live (node_at tree.now.nodes id) ≡ true) × (path_at tree.now.nodes id ≡ path.now)) }
    ensures all { (id : ℕ) → is_live (node_at tree.now.nodes id) ≡ true → path_at tree.now.nodes id ≡ path.now → result ≡ Some id }
{
    match tree.find(path) {
        Some(id) if tree.fate(id) == Fate::Live => Some(id),
        Some(_) => None,
        None => None,
    }
}

/// The frame of a live instance, whether it is parked or with one of so many workers.
pub(crate) fn frame_live<'a>(
    tree: &'a Tree,
    hands: &'a Hands,
    workers: u8,
    id: Id,
) -> Option<&'a Frame>
    requires workers { workers ≡ length hands.now }
    requires live { is_live (node_at tree.now.nodes id) ≡ true }
    ensures { option_copied result ≡ frame_live tree.now.nodes hands.now id }
{
    match tree.parked(id) {
        Some(frame) => Some(frame),
        None => frame_held(hands, workers, id),
    }
}

fn frame_held(hands: &Hands, workers: u8, id: Id) -> Option<&Frame>
    requires workers { workers ≡ length hands.now }
    ensures { option_copied result ≡ frame_held id hands.now }
{
    for before in 0..workers {
        if let Some(frame) = frame_at(hands, before + 1, id) {
            return Some(frame);
        }
    }
    None
}

fn frame_at(hands: &Hands, worker: u8, id: Id) -> Option<&Frame>
    requires { IsWorker hands.now worker }
    ensures { option_copied result ≡ frame_at id (worker_at hands.now worker) }
{
    match hands.hand(worker) {
        Some(frame) if frame.id() == id => Some(frame),
        Some(_) => frame_queued(hands, worker, id),
        None => frame_queued(hands, worker, id),
    }
}

/// The first frame in a worker's deque that is of this instance.
pub(crate) fn frame_queued(hands: &Hands, worker: u8, id: Id) -> Option<&Frame>
    requires { IsWorker hands.now worker }
    ensures { option_copied result ≡ frame_among id (deque_of hands.now worker) }
{
    for i in 0..hands.len(worker) {
        if let Some(frame) = hands.queued(worker, i)
            && frame.id() == id
        {
            return Some(frame);
        }
    }
    None
}
