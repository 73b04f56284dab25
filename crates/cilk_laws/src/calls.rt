//! Laws of calls, spawns and inlets of well-formed programs. The functions do nothing: their contracts are what is proved.

ghost use Rattle.cilk_laws.specs.CallLaws.{CallsSuit, EachInletStarts, InletsRunAlone, OnlyProceduresSync, EachSyncSettlesChildren};

/// In a well-formed program, after it is labelled too, only procedures spawn and wait, what is called
/// is a C function, and what takes a child's value an inlet.
pub fn calls_suit()
    ensures { CallsSuit }
{}

/// A Delivered event for an inlet of a well-formed program starts that inlet on the procedure's own
/// activation.
pub fn each_inlet_starts()
    ensures { EachInletStarts }
{}

/// While an inlet of a well-formed program runs, each step of its instance is Acted, of the inlet or
/// of a C function called from it, or Trapped, or Moved or Ended once the instance is aborted.
pub fn inlets_run_alone()
    ensures { InletsRunAlone }
{}

/// In a well-formed program a `sync` is passed in a procedure's own activation alone.
pub fn only_procedures_sync()
    ensures { OnlyProceduresSync }
{}

/// As an instance of a well-formed program passes a `sync`, every child that it spawned before is not
/// live: one whose value something takes was delivered or aborted, any other has returned or was
/// aborted.
pub fn each_sync_settles_children()
    ensures { EachSyncSettlesChildren }
{}
