//! Laws. The functions do nothing: their contracts are what is proved.

ghost use Rattle.cilk_machine_undo.specs.Laws.{PlansAreUndone, PlansCanBeUndone, PopsAreUndone, PopsCanBeUndone, StealsAreUndone, StealsCanBeUndone};

/// What a plan changed, its record puts back.
pub fn plans_are_undone()
    ensures { PlansAreUndone }
{}

/// What has to be there for that is there behind the step.
pub fn plans_can_be_undone()
    ensures { PlansCanBeUndone }
{}

/// So it is of a frame that was popped or stolen.
pub fn moves_are_undone()
    ensures pops { PopsAreUndone }
    ensures steals { StealsAreUndone }
    ensures can_pop { PopsCanBeUndone }
    ensures can_steal { StealsCanBeUndone }
{}
