//! What holds of every text and its program. This function does nothing: its contract is the law.

ghost use Rattle.std.specs.Prelude.{◌≡◌, ℕ, List};
ghost use Rattle.cilk_parse_grammar.specs.syntax.Tree as tree;
ghost use Rattle.cilk_parse.specs.Text.{Spells};

/// A text spells one program at most, its places and its length among it (C 1990, 6.1, 6.3 and 6.5 to 6.7).
pub fn one_program_of_a_text()
    ensures { (text : List ℕ) (p q : tree.Program) → Spells text p → Spells text q → p ≡ q }
{}
