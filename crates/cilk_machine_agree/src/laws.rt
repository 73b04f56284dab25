//! What keeps agreement. The functions do nothing: their contracts are what is proved.

ghost use Rattle.cilk_machine_agree.specs.Laws.{OpeningAgrees, NothingIsHidden, PopsAgree, StealsAgree, LocalAgrees, WaitingAgrees, SpawnsAgree};
ghost use Rattle.cilk_machine_agree.specs.Laws.{MarksAgree, ReturnsAgree, EndsAgree, FatesAgree};
ghost use Rattle.cilk_machine_agree.specs.Actions.{GoingAgrees, WritesAgree, CallsAgree, LeavesAgree, AnswersAgree, DeliveriesAgree, InletsAgree};
ghost use Rattle.cilk_machine_agree.specs.Actions.{PrintsAgree, LocksAgree, TrapsAgree, StartsAgree, AbortsAgree};
ghost use Rattle.cilk_machine_agree.specs.Asked.{AskedOf, OldestIsTold, NoneIsTold, PlacedOf};
ghost use Rattle.cilk_machine_agree.specs.Between.{HandsAreFilled, HandsAreRestored, HandsAreHandedOn, SendersCanEnd, ParentsOutlive};
ghost use Rattle.cilk_machine_agree.specs.FateLaws.{RootsAreFated, FatesAreKept, FatesAreRead, FatesAreOne};

/// The root alone, with its frame in the hand of worker 1, agrees with the start of the program;
/// and the instances with which a machine agrees may be read off the standing.
pub fn the_opening_agrees()
    ensures opening { OpeningAgrees }
    ensures nothing_is_hidden { NothingIsHidden }
{}

/// A frame that a worker pops or steals keeps agreement.
pub fn moves_keep_agreement()
    ensures pops { PopsAgree }
    ensures steals { StealsAgree }
{}

/// What the instance in a worker's hand does keeps agreement: by itself, as it waits for its
/// children, spawns, marks its descendants, returns, or ends where it was marked. Another fate told
/// of an instance that lives as it did keeps it too.
pub fn steps_keep_agreement()
    ensures by_itself { LocalAgrees }
    ensures waiting { WaitingAgrees }
    ensures spawns { SpawnsAgree }
    ensures marks { MarksAgree }
    ensures returns { ReturnsAgree }
    ensures ends { EndsAgree }
    ensures fates { FatesAgree }
{}

/// So does each action, and each delivery that is taken.
pub fn actions_keep_agreement()
    ensures going { GoingAgrees }
    ensures writes { WritesAgree }
    ensures calls { CallsAgree }
    ensures leaves { LeavesAgree }
    ensures answers { AnswersAgree }
    ensures deliveries { DeliveriesAgree }
    ensures inlets { InletsAgree }
    ensures prints { PrintsAgree }
    ensures locks { LocksAgree }
    ensures traps { TrapsAgree }
    ensures starts { StartsAgree }
    ensures aborts { AbortsAgree }
{}

/// What a step or a choice asks of the standing is told by the machine.
pub fn questions_have_one_answer()
    ensures steps { AskedOf }
    ensures oldest { OldestIsTold }
    ensures none { NoneIsTold }
    ensures choices { PlacedOf }
{}

/// A step goes through states that agree with no standing: the frame is out of the hand, or an
/// instance has sent its value and not ended yet.
pub fn steps_have_halves()
    ensures filled { HandsAreFilled }
    ensures restored { HandsAreRestored }
    ensures handed_on { HandsAreHandedOn }
    ensures senders { SendersCanEnd }
    ensures parents { ParentsOutlive }
{}

/// The root alone is fated as no event tells it; and what follows an event is fated as the events
/// with that one tell it.
pub fn fates_are_kept()
    ensures start { RootsAreFated }
    ensures kept { FatesAreKept }
{}

/// A node tells the fate of its path, and a path that is no node's was never made. So nodes are
/// fated in one way, whatever the events were.
pub fn fates_are_one()
    ensures read { FatesAreRead }
    ensures one { FatesAreOne }
{}
