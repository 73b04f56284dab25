//! Whether the parts of two machines but hands and deques tell the same, where instances go by their paths; and numbers that tell parts apart.

ghost use Rattle.std.specs.Prelude.{◌≡◌, true, map};
ghost use Rattle.cilk_machine_undo.specs.spawn.Nodes.{path_at};
ghost use Rattle.cilk_machine_undo.specs.agree.Outside.{lock_by};

use cilk_machine_undo::{Frame, Lock, Mixer, Tree};
use cilk_sched::Outcome;

/// Whether the locks are the same.
pub(crate) fn are_same_locks(locks: &[Lock], tree: &Tree, others: &[Lock], other: &Tree) -> bool
    ensures { result ≡ true → map (lock_by (path_at tree.now.nodes)) locks.now ≡ map (lock_by (path_at other.now.nodes)) others.now }
{
    if locks.len() != others.len() {
        return false;
    }
    for k in 0..locks.len() {
        if !is_same_lock(&locks[k], tree, &others[k], other) {
            return false;
        }
    }
    true
}

fn is_same_lock(lock: &Lock, tree: &Tree, held: &Lock, other: &Tree) -> bool
    ensures { result ≡ true → lock_by (path_at tree.now.nodes) lock.now ≡ lock_by (path_at other.now.nodes) held.now }
{
    match (lock, held) {
        (Lock::Unset, Lock::Unset) => true,
        (Lock::Free, Lock::Free) => true,
        (Lock::Held(id), Lock::Held(to)) => tree.is_same_path(*id, other, *to),
        _ => false,
    }
}

/// Whether the outcome is the same.
pub(crate) fn is_same_outcome(outcome: &Outcome, other: &Outcome) -> bool
    ensures { result ≡ true → outcome.now ≡ other.now }
{
    match (outcome, other) {
        (Outcome::Running, Outcome::Running) => true,
        (Outcome::Finished(value), Outcome::Finished(another)) => value == another,
        (
            Outcome::Trapped { kind, path, n },
            Outcome::Trapped {
                kind: sort,
                path: way,
                n: number,
            },
        ) => kind == sort && n == number && is_same_text(path.as_slice(), way.as_slice()),
        _ => false,
    }
}

fn is_same_text(numbers: &[u32], others: &[u32]) -> bool
    ensures { result ≡ true → numbers.now ≡ others.now }
{
    numbers == others
}

/// Whether the cells are the same.
pub(crate) fn are_same_cells(cells: &[i32], others: &[i32]) -> bool
    ensures { result ≡ true → cells.now ≡ others.now }
{
    cells == others
}

/// Whether the same was printed.
pub(crate) fn is_same_output(bytes: &[u8], others: &[u8]) -> bool
    ensures { result ≡ true → bytes.now ≡ others.now }
{
    bytes == others
}

/// A frame in a hand as a number that tells apart whose it is and where it goes on.
pub(crate) fn mixed_in_hand(frame: &Frame, tree: &Tree) -> u64 {
    mixed_at(1, frame, tree)
}

/// The same of a frame in a deque.
pub(crate) fn mixed_in_deque(frame: &Frame, tree: &Tree) -> u64 {
    mixed_at(2, frame, tree)
}

fn mixed_at(place: u64, frame: &Frame, tree: &Tree) -> u64 {
    let mut own = Mixer::new();
    own.put(place);
    own.put(tree.mixed_path(frame.id()));
    frame.mix(&mut own);
    own.mixed()
}

/// The locks enter a number that tells states apart.
pub(crate) fn mix_locks(locks: &[Lock], tree: &Tree, mixer: &mut Mixer) {
    for lock in locks {
        match lock {
            Lock::Unset => mixer.put(1),
            Lock::Free => mixer.put(2),
            Lock::Held(id) => {
                mixer.put(3);
                mixer.put(tree.mixed_path(*id));
            }
        }
    }
}

/// So does the outcome.
pub(crate) fn mix_outcome(outcome: &Outcome, mixer: &mut Mixer) {
    match outcome {
        Outcome::Running => mixer.put(1),
        Outcome::Finished(value) => {
            mixer.put(2);
            mixer.put_signed(*value);
        }
        Outcome::Trapped { n, .. } => {
            mixer.put(3);
            mixer.put(*n as u64);
        }
    }
}
