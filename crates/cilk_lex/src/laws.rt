//! What holds of every text. These functions tell their callers nothing: their contracts are the laws.

ghost use Rattle.std.specs.Prelude.{◌≡◌, ◌⊎◌, ℕ, Bool, List};
ghost use Rattle.cilk_lex_tokens.specs.declared.fault.LexFault.{LexFault};
ghost use Rattle.cilk_lex_tokens.specs.Lexeme.{Piece};
ghost use Rattle.cilk_lex_tokens.specs.Lexing.{Lexes, Faulty};

/// A text is made of its pieces in one way only.
pub fn one_reading()
    ensures { (fresh : Bool) (at : ℕ) (text : List ℕ) (ps qs : List Piece)
        → Lexes fresh at text ps → Lexes fresh at text qs → ps ≡ qs }
{}

/// No text is made of pieces and has a fault.
pub fn never_both()
    ensures { (fresh : Bool) (at : ℕ) (text : List ℕ) (ps : List Piece) (f : LexFault)
        → Lexes fresh at text ps → Faulty fresh at text f → ⊥ }
{}

/// A text has one first fault at most.
pub fn one_fault()
    ensures { (fresh : Bool) (at : ℕ) (text : List ℕ) (f g : LexFault)
        → Faulty fresh at text f → Faulty fresh at text g → f ≡ g }
{}

/// A text is made of pieces, or has a first fault.
pub fn reading_or_fault()
    ensures { (fresh : Bool) (at : ℕ) (text : List ℕ)
        → ((ps : List Piece) × Lexes fresh at text ps) ⊎ ((f : LexFault) × Faulty fresh at text f) }
{}
