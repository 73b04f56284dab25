//! The law of scenes. The function does nothing: its contract is what is proved.

ghost use Rattle.std.specs.Prelude.{◌<◌, length};
ghost use Rattle.cilk_load.specs.scopes.WellFormed.{WellFormed};
ghost use Rattle.cilk_machine_plan.specs.agree.Laws.{InHand};
ghost use Rattle.cilk_machine_plan.specs.Plans.{input_in};
ghost use Rattle.cilk_machine_plan.specs.StepInput.{id_of};
ghost use Rattle.cilk_machine_step.specs.Scenes.{HeadFits};

/// The step of an instance in a worker's hand can be planned.
pub fn scenes_fit()
    ensures there { (t : InHand) → id_of (input_in t) < length (input_in t).nodes }
    ensures fits { (t : InHand) → WellFormed t.program → HeadFits (input_in t) }
{}
