//! A lock is taken, set or freed.

ghost use Rattle.std.specs.Prelude.{◌≡◌, slice_set};

use cilk_machine_agree::Lock;

/// A lock becomes this.
pub fn turn_lock(locks: &mut Vec<Lock>, lock: u32, now: Lock)
    ensures { locks.new.items ≡ slice_set locks.old.items lock now }
{
    let place = lock as usize;
    if place < locks.len() {
        locks[place] = now;
    }
}
