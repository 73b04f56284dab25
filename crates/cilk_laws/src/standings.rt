//! Where a machine stands. This function does nothing: its contract is the law.

ghost use Rattle.std.specs.Prelude.{◌≡◌};
ghost use Rattle.cilk_check.specs.scopes.WellFormed.{WellFormed};
ghost use Rattle.cilk_laws_model.specs.model.Run.{Standing};
ghost use Rattle.cilk_machine.specs.Situation.{Situation};
ghost use Rattle.cilk_machine.specs.Stands.{StandsAt};

/// A machine stands at one standing at most, whatever choices led there: the frames, the tree, the hands,
/// the cells, the locks and the output tell all of it.
pub fn one_standing()
    ensures { (m : Situation) (a b : Standing) → WellFormed m.program → StandsAt m a → StandsAt m b → a ≡ b }
{}
