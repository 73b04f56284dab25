//! Laws of what instances go on with, where the forms of a program have no fault. The functions do nothing: their contracts are what is proved.

ghost use Rattle.cilk_laws.specs.HeadLaws.{BreaksStandInLoops, EachHasHead, StuckOnLocks};

/// In a program whose forms have no fault, each `continue` stands in a loop of its body, and each `break` in a
/// loop or a `switch`, after it is labelled too.
pub fn breaks_stand_in_loops()
    ensures { BreaksStandInLoops }
{}

/// After every list of possible choices of a program whose forms have no fault, each activation of
/// each live instance has an action to go on with.
pub fn each_instance_has_a_head()
    ensures { EachHasHead }
{}

/// A program whose forms have no fault is stuck only where each worker with a full hand waits for a
/// lock that another live instance holds.
pub fn stuck_on_locks_alone()
    ensures { StuckOnLocks }
{}
