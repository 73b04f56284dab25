//! The law of accesses. The function does nothing: its contract is what is proved.

ghost use Rattle.std.specs.Prelude.{◌≡◌};
ghost use Rattle.cilk_machine_plan.specs.scopes.WellFormed.{WellFormed};
ghost use Rattle.cilk_machine_plan.specs.labelled.Bodies.{label};
ghost use Rattle.cilk_machine_plan.specs.agree.Laws.{InHand, instance_of, path_of};
ghost use Rattle.cilk_machine_plan.specs.Plans.{input_in};
ghost use Rattle.cilk_machine_step.specs.Accesses.{accesses_of, locks_from};
ghost use Rattle.cilk_machine_step.specs.Shown.{held, touched};

/// What a scene shows of the next step of an instance is what the definitions say: the cells that it touches, and the locks that are held then.
pub fn accesses_are_shown()
    ensures cells { (t : InHand) → WellFormed t.program → touched (input_in t) ≡ accesses_of (label t.program) t.at.state (path_of t) (instance_of t) }
    ensures locks { (t : InHand) → held (input_in t) ≡ locks_from 0 (path_of t) t.at.state.locks }
{}
