//! Carries out the plan of a lock that is set, taken or freed; and how an instance that was aborted lets go of its locks.

ghost use Rattle.std.specs.Prelude.{◌≡◌, ℕ, Option, None, map};
ghost use Rattle.cilk_machine_plan.specs.model.Hands.{IsWorker, hand_of};
ghost use Rattle.cilk_machine_plan.specs.nodes.declared.body.Body.{Body};
ghost use Rattle.cilk_machine_plan.specs.agree.Laws.{released};
ghost use Rattle.cilk_machine_plan.specs.agree.Outside as outside;
ghost use Rattle.cilk_machine_plan.specs.declared.plan.Plan.TheVariants as plans;
ghost use Rattle.cilk_machine_plan.specs.PartWords.{machine_of, outcome_of};
ghost use Rattle.cilk_machine_plan.specs.Carried.{Carried};

use crate::acting::acted;
use crate::entering::go_on;
use crate::given::Passage;
use cilk_machine_plan::{Done, Frame, Id, Lock, Parts, turn_lock};

/// The locks of an instance that was aborted are free.
pub(crate) fn release(locks: &mut Vec<Lock>, id: Id)
    ensures { locks.new.items ≡ map (released id) locks.old.items }
{
    for lock in locks.iter_mut() {
        *lock = released(*lock, id);
    }
}

fn released(lock: Lock, id: Id) -> Lock
    ensures { result ≡ released id lock }
{
    match lock {
        Lock::Held(holder) => { if holder == id { Lock::Free } else { lock } }
        Lock::Unset => lock,
        Lock::Free => lock,
    }
}

/// A lock is taken, set or freed.
pub(crate) fn carry_lock_turn(
    worker: u8,
    frame: Frame,
    passage: Passage,
    lock: u32,
    now: Lock,
    parts: &mut Parts,
) -> Done
    requires worker { IsWorker parts.old.hands worker }
    requires empty { hand_of parts.old.hands worker ≡ None }
    ensures { (choice : ℕ) (body : Option Body) → Carried choice (machine_of parts.old outside.running) worker frame body
        (plans.TurnLock passage.n lock now passage.to) (machine_of parts.new (outcome_of result.outcome)) result.did }
{
    turn_lock(&mut parts.locks, lock, now);
    acted(
        worker,
        go_on(frame, passage.to),
        passage.n,
        &mut parts.hands,
    )
}
