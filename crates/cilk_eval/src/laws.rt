//! Laws about values. The functions do nothing: their contracts are what is proved.

ghost use Rattle.std.specs.Prelude.{◌≡◌, ◌≢◌, ℕ, ◌^◌, ℤ, pos, ◌*ℤ◌, true, int_div, int_rem, Ok};
ghost use Rattle.std.specs.Int.{int_div_euclid};
ghost use Rattle.cilk_frame.specs.syntax.declared.operator.BinOp.TheVariants.{Divide, Remainder, ShiftLeft, ShiftRight};
ghost use Rattle.cilk_frame.specs.labelled.Arithmetic.{binary_result};
ghost use Rattle.cilk_frame.specs.labelled.Term.{Term, rename};
ghost use Rattle.cilk_frame.specs.labelled.Value.{Environment, value_of, seen_through};
ghost use Rattle.cilk_frame.specs.nodes.declared.slot.Slot.{Slot};
ghost use Rattle.cilk_eval.specs.Known.{known, known_of};
ghost use Rattle.cilk_frame.specs.nodes.Reads.{is_plain};
ghost use Rattle.cilk_frame.specs.nodes.Reads.{ReadsSame};
ghost use Rattle.cilk_eval.specs.Rounding.{Truncates, RoundsDown};
ghost use Rattle.cilk_frame.specs.nodes.Areas.{Cells, environment};

/// Other names for the places of an expression leave its value as it is, and so does a change of
/// what it does not read.
pub fn value_is_of_what_is_read<P, Q>()
    ensures renamed { (f : P → Q) (env : Environment Q) (t : Term P)
        → value_of env (rename f t) ≡ value_of (seen_through f env) t }
    ensures same { (env other : Environment P) (t : Term P)
        → ReadsSame env other t → value_of env t ≡ value_of other t }
{}

/// The words by which `/`, `%` and `>>` are defined round as the language asks.
pub fn quotients_are_rounded()
    ensures division { (a b : ℤ) → b ≢ pos 0 → Truncates a b (int_div a b) (int_rem a b) }
    ensures shift { (a : ℤ) (k : ℕ) → RoundsDown a (2 ^ k) (int_div_euclid a (pos (2 ^ k))) }
{}

/// What `/`, `%`, `<<` and `>>` give, where they give something (C 1990, 6.3.5, 6.3.7).
pub fn results_are_rounded()
    ensures division { (a b q : ℤ) → binary_result Divide a b ≡ Ok q → (r : ℤ) × Truncates a b q r }
    ensures remainder { (a b r : ℤ) → binary_result Remainder a b ≡ Ok r → (q : ℤ) × Truncates a b q r }
    ensures shift_left { (a : ℤ) (k : ℕ) (z : ℤ) → binary_result ShiftLeft a (pos k) ≡ Ok z → z ≡ a *ℤ pos (2 ^ k) }
    ensures shift_right { (a : ℤ) (k : ℕ) (q : ℤ) → binary_result ShiftRight a (pos k) ≡ Ok q → RoundsDown a (2 ^ k) q }
{}

/// What is known of the variables of a plain expression, where cells hold them, gives it the value that it has over those cells.
pub fn plain_values_are_known()
    ensures { (cells : Cells) (t : Term Slot) → is_plain t ≡ true
        → value_of (known (known_of cells t)) t ≡ value_of (environment cells) t }
{}
