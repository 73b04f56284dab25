//! Laws of an instance and its children. The functions do nothing: their contracts are what is proved.

ghost use Rattle.cilk_laws.specs.ChildLaws.{ChildrenAreSettled, TheMadeHaveLived, TheMadeAreSpawnedOnce, DeliveredOnce, AbortMarks};
ghost use Rattle.cilk_laws.specs.ChildLaws.{AbortSparesOthers, AbortKeepsDeliveries, TheNewAreUnmarked, OnlyAnAbortMarks, TheMarkedAreSilent};
ghost use Rattle.cilk_laws.specs.ChildLaws.{TheMarkedTakeNothing, TakenAtBoundaries, EachInletStarts, InletsRunAlone, OthersLeaveIt};
ghost use Rattle.cilk_laws.specs.ChildLaws.{OnlyProceduresSync};

/// As an instance passes a `sync` of its procedure, or returns, every child that it spawned before is
/// not live: one whose value something takes was delivered or aborted, any other has returned or was
/// aborted.
pub fn children_are_settled()
    ensures { ChildrenAreSettled }
{}

/// After every list of possible choices, each path that was made lived after some first of them.
pub fn the_made_have_lived()
    ensures { TheMadeHaveLived }
{}

/// After every list of possible choices no path was spawned twice, and the root never.
pub fn the_made_are_spawned_once()
    ensures { TheMadeAreSpawnedOnce }
{}

/// After every list of possible choices no path's value was taken twice.
pub fn delivered_once()
    ensures { DeliveredOnce }
{}

/// An `abort` marks each live descendant of its instance.
pub fn abort_marks()
    ensures { AbortMarks }
{}

/// An `abort` marks no other instance than descendants, nor its own, and takes no mark away.
pub fn abort_spares_others()
    ensures { AbortSparesOthers }
{}

/// An `abort` takes no delivery away that waits, of any instance.
pub fn abort_keeps_deliveries()
    ensures { AbortKeepsDeliveries }
{}

/// A child is not marked as it is spawned, whatever `abort` came before.
pub fn the_new_are_unmarked()
    ensures { TheNewAreUnmarked }
{}

/// An instance is marked only by an `abort` of one above it.
pub fn only_an_abort_marks()
    ensures { OnlyAnAbortMarks }
{}

/// A path that is marked has no Returned and no Delivered event afterwards.
pub fn the_marked_are_silent()
    ensures { TheMarkedAreSilent }
{}

/// No child of an instance that is marked has a Delivered event afterwards: what waits for it ends with
/// it.
pub fn the_marked_take_nothing()
    ensures { TheMarkedTakeNothing }
{}

/// A Delivered event comes only at a boundary of the parent, of the delivery that waits first there.
pub fn taken_at_boundaries()
    ensures { TakenAtBoundaries }
{}

/// A Delivered event for an inlet starts that inlet on the procedure's own activation, where calls and
/// spawns suit the bodies that they stand in.
pub fn each_inlet_starts()
    ensures { EachInletStarts }
{}

/// While an inlet runs, each step of its instance is Acted, of the inlet or of a C function called
/// from it, or Trapped, or Moved or Ended once the instance is aborted; the procedure stands still.
pub fn inlets_run_alone()
    ensures { InletsRunAlone }
{}

/// A choice that is no step of an instance leaves its activations as they are.
pub fn others_leave_an_inlet()
    ensures { OthersLeaveIt }
{}

/// Where calls and spawns suit the bodies that they stand in, a `sync` is passed in a procedure's own
/// activation alone.
pub fn only_procedures_sync()
    ensures { OnlyProceduresSync }
{}
