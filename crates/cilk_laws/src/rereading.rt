//! What holds of every program that tokens spell. These functions do nothing: their contracts are the laws.

ghost use Rattle.std.specs.Prelude.{◌≡◌, ℕ, ◌≤◌, true, List, All};
ghost use Rattle.cilk_check.specs.lexeme.Lexeme.{Piece};
ghost use Rattle.cilk_tree.specs.syntax.ProgramText.{program_text};
ghost use Rattle.cilk_check.specs.lexeme.Good.{IsGoodLexeme};
ghost use Rattle.cilk_check.specs.lexeme.Lexing.{Lexes};
ghost use Rattle.cilk_check.specs.syntax.Tree as tree;
ghost use Rattle.cilk_check.specs.syntax.Bare.{bare_program};
ghost use Rattle.cilk_parse_grammar.specs.Spelling.{SpellsProgram};
ghost use Rattle.cilk_parse_grammar.specs.Fault.{lexemes};
ghost use Rattle.cilk_laws.specs.CanWrite.{CanWrite};
ghost use Rattle.cilk_laws.specs.Plain.{PlainItems};
ghost use Rattle.cilk_laws.specs.ProgramLexemes.{program_lexemes};

/// Tokens that are the canonical lexemes of a program that some tokens spell, spell the same program, places aside and
/// within the same limits (C 1990, 6.3 and 6.5 to 6.7; Cilk 5.4 manual).
pub fn spelled_again()
    ensures { (l d n : ℕ) → l ≤ d → (ts us : List Piece) (p : tree.Program)
        → SpellsProgram l d n ts p → PlainItems p.items → lexemes us ≡ program_lexemes p
        → ((q : tree.Program) × SpellsProgram l d n us q × (bare_program q ≡ bare_program p)) }
{}

/// A program that the tokens of a text spell can be written: its names, numbers and text literals are theirs, but for the
/// number 1 as the test that a `for` has not (C 1990, 6.6.5.3).
pub fn can_be_written()
    ensures { (l d n : ℕ) (ts : List Piece) (p : tree.Program)
        → All (λ t. IsGoodLexeme t.lexeme) ts → SpellsProgram l d n ts p → CanWrite p }
{}

/// The canonical text of a program that some text spells is itself the text of a program (C 1990, 6.3 and 6.5 to 6.7; Cilk
/// 5.4 manual), within the same limits, which is the same, places and lengths aside.
pub fn printed_again()
    ensures { (l d n : ℕ) → l ≤ d → (text : List ℕ) (ts : List Piece) (p : tree.Program)
        → Lexes true 0 text ts → SpellsProgram l d n ts p → PlainItems p.items
        → ((us : List Piece) × (q : tree.Program) × Lexes true 0 (program_text p) us × SpellsProgram l d n us q × (bare_program q ≡ bare_program p)) }
{}
