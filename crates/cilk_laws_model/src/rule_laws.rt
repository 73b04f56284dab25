//! Laws of the written rule of one step. The functions do nothing: their contracts are what is proved.

ghost use Rattle.cilk_laws_model.specs.Order.{EachPickIsAllowed, EachStateIsInOrder};
ghost use Rattle.cilk_laws_model.specs.Kept.{EachChoiceKeepsRule};
ghost use Rattle.cilk_laws_model.specs.Forced.{EachWaitIsForced};
ghost use Rattle.cilk_laws_model.specs.OneState.{RuleLeavesOneState};
ghost use Rattle.cilk_laws_model.specs.Synched.{SynchedMeans};

/// The written rule allows each step that is taken, from any state that is in order, whether or not
/// a run leads there, and the event is the one that the rule's step is told by.
pub fn each_pick_is_allowed()
    ensures { EachPickIsAllowed }
{}

/// An instance waits only where the written rule allows it nothing, unless it is aborted and has a
/// live child.
pub fn each_wait_is_forced()
    ensures { EachWaitIsForced }
{}

/// After every list of possible choices the state is in order.
pub fn each_state_is_in_order()
    ensures { EachStateIsInOrder }
{}

/// After every list of possible choices, one more is a step that the written rule allows to the
/// instance in the worker's hand, with the event that tells it, or leaves the state as it is.
pub fn each_choice_keeps_the_rule()
    ensures { EachChoiceKeepsRule }
{}

/// What the written rule allows for one head, one delivery or one aborted end is one state, as far
/// as look-ups tell.
pub fn written_rule_leaves_one_state()
    ensures { RuleLeavesOneState }
{}

/// `SYNCHED` is 1, and a procedure may pass a `sync` or return, exactly where no child of it lives and no
/// delivery waits.
pub fn synched_means_nothing_to_wait_for()
    ensures { SynchedMeans }
{}
