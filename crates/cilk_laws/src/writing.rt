//! What holds of the canonical text of every program. This function does nothing: its contract is the law.

ghost use Rattle.std.specs.Prelude.{◌≡◌, ℕ, true, List, map};
ghost use Rattle.cilk_tree.specs.syntax.ProgramText.{program_text};
ghost use Rattle.cilk_check.specs.lexeme.Lexeme.{Piece};
ghost use Rattle.cilk_check.specs.lexeme.Lexing.{Lexes};
ghost use Rattle.cilk_laws.specs.CanWrite.{CanWrite};
ghost use Rattle.cilk_laws.specs.ProgramLexemes.{program_lexemes};
ghost use Rattle.cilk_check.specs.syntax.Tree as tree;

/// The canonical text of a program that can be written, wherever it begins a line, is made of the program's canonical
/// tokens (C 1990, 6.1).
pub fn spelled()
    ensures { (at : ℕ) (p : tree.Program) → CanWrite p
        → ((ps : List Piece) × Lexes true at (program_text p) ps × (map (λ q. q.lexeme) ps ≡ program_lexemes p)) }
{}
