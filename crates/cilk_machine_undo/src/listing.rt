//! The instances that an `abort` will mark, and the locks that an instance holds, listed before a step.

ghost use Rattle.std.specs.Prelude.{◌≡◌, ◌<◌, ◌++◌, ◌∷◌, [], cond, length, IfOk, OnOk};
ghost use Rattle.cilk_machine_plan.specs.spawn.Nodes.{descends};
ghost use Rattle.cilk_machine_plan.specs.agree.Locks.{is_held_by};
ghost use Rattle.cilk_machine_undo.specs.Records.{is_new, locks_of, marked_by};

use cilk_machine_plan::{Fate, Id, Lock, NoMemory, Tree};
use std::alloc::Global;

/// The locks that the instance holds.
pub(crate) fn locks_held(alloc: Global, locks: &[Lock], id: Id) -> Result<Vec<usize>, NoMemory>
    ensures { IfOk result (λ held. held.items ≡ locks_of id locks.now) }
{
    let mut held = Vec::new(alloc);
    for i in 0..locks.len() {
        let held_by_it = holds(&locks[i], id);
        push_if(&mut held, held_by_it, i)?;
    }
    Ok(held)
}

// Puts x behind the others, if it is to be there.
fn push_if<T: Drop>(xs: &mut Vec<T>, does: bool, x: T) -> Result<(), NoMemory>
    ensures { OnOk result (xs.new.items ≡ xs.old.items ++ cond does (x ∷ []) []) }
{
    if does && xs.push(x).is_err() {
        return Err(NoMemory);
    }
    Ok(())
}

fn holds(lock: &Lock, id: Id) -> bool
    ensures { result ≡ is_held_by id lock.now }
{
    match lock {
        Lock::Held(holder) => *holder == id,
        Lock::Unset => false,
        Lock::Free => false,
    }
}

/// The live descendants of the instance that no `abort` has marked yet.
pub(crate) fn newly_marked(alloc: Global, tree: &Tree, id: Id) -> Result<Vec<Id>, NoMemory>
    ensures { IfOk result (λ ids. ids.items ≡ marked_by id tree.now.nodes) }
{
    let mut ids = Vec::new(alloc);
    for i in 0..tree.next_id().number() {
        let at = Id::new(i);
        let new = is_new(tree, id, at);
        push_if(&mut ids, new, at)?;
    }
    Ok(ids)
}

// Whether an `abort` in the instance marks this one for the first time.
fn is_new(tree: &Tree, id: Id, at: Id) -> bool
    requires { at < length tree.now.nodes }
    ensures { result ≡ is_new tree.now.nodes id at }
{
    matches!(tree.fate(at), Fate::Live) && descends(tree, id, at) && !tree.is_aborted(at)
}

// Whether the instance is among those above this one.
fn descends(tree: &Tree, id: Id, from: Id) -> bool
    requires { from < length tree.now.nodes }
    ensures { result ≡ descends tree.now.nodes id from }
{
    // Brings its clauses into the proof.
    let _id = tree.next_id();
    let mut at = from;
    while let Some(parent) = tree.parent(at) {
        if parent == id {
            return true;
        }
        at = parent;
    }
    false
}
