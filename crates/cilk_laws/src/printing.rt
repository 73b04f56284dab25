//! What holds of the canonical text of every program that breaks no rule. These functions do nothing: their contracts
//! are the laws.

ghost use Rattle.std.specs.Prelude.{◌≡◌, ℕ, List};
ghost use Rattle.cilk_tree.specs.syntax.ProgramText.{program_text};
ghost use Rattle.cilk_check.specs.syntax.Tree as tree;
ghost use Rattle.cilk_check.specs.syntax.Bare.{bare_program};
ghost use Rattle.cilk_parse.specs.Text.{Spells};
ghost use Rattle.cilk_check.specs.scopes.WellFormed.{WellFormed};
ghost use Rattle.cilk_laws.specs.Plain.{PlainItems};

/// In a program that breaks no rule no statement increments or decrements what has the name of `printf` or of a call
/// of a lock: those names are reserved (C 1990, 6.3.2.4, 6.3.3.1 and 7.9.6.3; Cilk 5.4 manual, locks).
pub fn well_formed_is_plain()
    ensures { (p : tree.Program) → WellFormed p → PlainItems p.items }
{}

/// The canonical text of a program that a text spells and that breaks no rule spells the same program again, places and
/// lengths aside (C 1990, 6.3 and 6.5 to 6.8; Cilk 5.4 manual).
pub fn printed_again()
    ensures { (text : List ℕ) (p : tree.Program) → Spells text p → WellFormed p
        → ((q : tree.Program) × Spells (program_text p) q × (bare_program q ≡ bare_program p)) }
{}

/// Programs that are the same, places and lengths aside, have the same canonical text. So the text of `printed_again`
/// is also that of the program which it spells.
pub fn printed_once_more()
    ensures { (p q : tree.Program) → bare_program q ≡ bare_program p → program_text q ≡ program_text p }
{}
