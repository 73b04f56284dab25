//! Laws of what only grows. The functions do nothing: their contracts are what is proved.

ghost use Rattle.cilk_machine_undo.specs.GrowthLaws.{CutsGoOn, FatedAreWithin, FatesStayWithin, LastTreesTell, PlansGrow, PopsGrow, StealsGrow, TreesAreCut};
ghost use Rattle.cilk_machine_undo.specs.GrowthLaws.{PlansPrint, ValuesAreTakenOnce};

/// Whatever plan is carried out, births stay, fates move as they may, and of an instance that has ended nothing else changes.
pub fn plans_grow()
    ensures { PlansGrow }
{}

/// What was printed stays in front of what is printed.
pub fn plans_print()
    ensures { PlansPrint }
{}

/// So it is where a frame is popped or stolen.
pub fn moves_grow()
    ensures pops { PopsGrow }
    ensures steals { StealsGrow }
{}

/// The node of an instance that had ended at a choice is read off any later tree.
pub fn ended_are_cut()
    ensures own { TreesAreCut }
    ensures on { CutsGoOn }
    ensures last { LastTreesTell }
{}

/// Fates tell of no choice that was not made yet.
pub fn fates_are_within()
    ensures told { FatedAreWithin }
    ensures on { FatesStayWithin }
{}

/// In a run a value is taken once.
pub fn values_are_taken_once()
    ensures { ValuesAreTakenOnce }
{}
