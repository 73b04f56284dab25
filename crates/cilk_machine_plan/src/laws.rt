//! The law of plans. The function does nothing: its contract is what is proved.

ghost use Rattle.cilk_machine_agree.specs.scopes.WellFormed.{WellFormed};
ghost use Rattle.cilk_machine_agree.specs.Laws.{InHand};
ghost use Rattle.cilk_machine_plan.specs.Plans.{input_in, IsPlan};
ghost use Rattle.cilk_machine_plan.specs.Made.{planned};

/// The plan that is made of what a step looks at is the step that the definition of runs takes.
pub fn plans_are_steps()
    ensures { (t : InHand) → WellFormed t.program → IsPlan t (planned (input_in t)) }
{}
