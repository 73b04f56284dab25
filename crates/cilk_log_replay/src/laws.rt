//! A law about choices that are made again. The function does nothing: its contract is what is proved.

ghost use Rattle.std.specs.Prelude.{ℕ};
ghost use Rattle.cilk_machine.specs.model.Choice.{Refusal};
ghost use Rattle.cilk_log_replay.specs.Tape.{Tape, IsPlayable, IsBad};

/// Where all choices of a schedule are possible one after the other, none of them is refused where it is made.
pub fn none_is_bad()
    ensures { (t : Tape) → IsPlayable t → (k : ℕ) → (why : Refusal) → IsBad t k why → ⊥ }
{}
