//! Laws of what later machines tell of earlier ones. The function does nothing: its contract is what is proved.

ghost use Rattle.cilk_machine_undo.specs.MomentLaws.{MachinesGoOn, MachinesTell};

/// A machine tells of itself what had ended and what was printed, and so does whatever choices make of it.
pub fn moments_are_told()
    ensures own { MachinesTell }
    ensures on { MachinesGoOn }
{}
