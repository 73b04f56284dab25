//! Laws about the definitions. The functions do nothing: their contracts are what is proved.

ghost use Rattle.cilk_laws_model.specs.Locks.{EachHolderLives};
ghost use Rattle.cilk_laws_model.specs.Laws.{OneByOne, PlacesAreKept, StuckExactly, EachLeafIsBusy, OneWorkerHasOneLeaf, EachHasHead, LimitsAreKept};
ghost use Rattle.cilk_laws_model.specs.Laws.{SomeChoiceIsPossible, StuckOnLocks, NoMoreLeavesThanWorkers, FinishedIsEmpty};

/// A list of choices is possible exactly where its front is, and then its last choice.
pub fn choices_are_made_one_by_one()
    ensures { OneByOne }
{}

/// At the start, and after each possible choice, each live instance is in one place; no two have one
/// path, and each child's parent lives and has counted it.
pub fn each_instance_is_in_its_place()
    ensures { PlacesAreKept }
{}

/// A program is stuck exactly where it has not ended and no choice of any worker is possible.
pub fn stuck_where_no_choice_is_possible()
    ensures { StuckExactly }
{}

/// After every list of possible choices each live instance without a live child is in a worker's
/// hand, or at the bottom of its deque where the hand is empty.
pub fn each_leaf_is_busy()
    ensures { EachLeafIsBusy }
{}

/// After every list of possible choices of one worker at most one live instance has no live child.
pub fn one_worker_has_one_leaf()
    ensures { OneWorkerHasOneLeaf }
{}

/// After every list of possible choices of a program whose `continue`s stand in loops, and whose `break`s in
/// loops or `switch`es, each activation of each live instance has an action to go on with.
pub fn each_instance_has_a_head()
    ensures { EachHasHead }
{}

/// After every list of possible choices at most 65,536 instances live, each with at most 256
/// activations and 4,294,967,295 children, and at most 1,048,576 bytes are printed.
pub fn limits_are_kept()
    ensures { LimitsAreKept }
{}

/// After every list of possible choices, where the program has not ended and no worker's step has to
/// wait, some choice is possible.
pub fn some_choice_is_possible()
    ensures { SomeChoiceIsPossible }
{}

/// After every list of possible choices a lock that is held is held by a live instance.
pub fn each_holder_of_a_lock_lives()
    ensures { EachHolderLives }
{}

/// A program whose `continue`s stand in loops, and whose `break`s in loops or `switch`es, is stuck only where each
/// worker with a full hand waits for a lock that another live instance holds.
pub fn a_program_is_stuck_on_locks_alone()
    ensures { StuckOnLocks }
{}

/// After every list of possible choices at most as many live instances have no live child as there are
/// workers.
pub fn no_more_leaves_than_workers()
    ensures { NoMoreLeavesThanWorkers }
{}

/// After every list of possible choices at the end of which the root has returned, no instance lives
/// and no lock is held.
pub fn the_end_is_empty()
    ensures { FinishedIsEmpty }
{}
