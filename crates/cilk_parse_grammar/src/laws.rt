//! What holds of every list of tokens and its program. These functions do nothing: their contracts are the laws.

ghost use Rattle.std.specs.Prelude.{◌≡◌, ℕ, ◌≤◌, length, List, [], Ok, Err, map};
ghost use Rattle.cilk_tree_syntax.specs.lexeme.Lexeme.{Piece};
ghost use Rattle.cilk_tree_syntax.specs.Tree as tree;
ghost use Rattle.cilk_parse_grammar.specs.declared.fault.Fault.TheVariants.{Unexpected, TooDeep};
ghost use Rattle.cilk_parse_grammar.specs.Expressions.{operator_limit, parenthesis_limit};
ghost use Rattle.cilk_tree_syntax.specs.Bare.{bare_program};
ghost use Rattle.cilk_parse_grammar.specs.Spelling.{nesting_limit, SpellsProgram, program_of};
ghost use Rattle.cilk_parse_grammar.specs.Fault.{lexemes, IsNotGoingOn, any_limits, the_limits, place_left};

/// Tokens spell one program at most, whatever the limits: no text has two readings (C 1990, 6.3 and 6.5 to 6.7).
pub fn one_program()
    ensures { (l d n l' d' n' : ℕ) (ts : List Piece) (p q : tree.Program)
        → SpellsProgram l d n ts p → SpellsProgram l' d' n' ts q → (p.headers ≡ q.headers) × (p.items ≡ q.items) }
{}

/// What is read is what the tokens spell, and what they spell is read.
pub fn program_read()
    ensures sound { (l d n : ℕ) (ts : List Piece) (p : tree.Program) (rest : List Piece)
        → program_of l d n ts ≡ Ok ((p.headers, p.items), rest) → SpellsProgram l d n ts p }
    ensures complete { (l d n : ℕ) (ts : List Piece) (p : tree.Program)
        → SpellsProgram l d n ts p → program_of l d n ts ≡ Ok ((p.headers, p.items), []) }
{}

/// Within wider limits the tokens of a program spell it too.
pub fn wider_limits()
    ensures { (l l' d d' n n' : ℕ) → l ≤ l' → d ≤ d' → n ≤ n' → (ts : List Piece) (p : tree.Program)
        → SpellsProgram l d n ts p → SpellsProgram l' d' n' ts p }
{}

/// The token at which reading stops is one through which no program goes: whatever the limits, or within the limits. At the
/// end of the tokens, where none is left, reading never finds itself too deep.
pub fn reading_stops()
    ensures unexpected { (end : ℕ) (ts : List Piece) (left : ℕ)
        → program_of operator_limit parenthesis_limit nesting_limit ts ≡ Err (Unexpected left)
        → IsNotGoingOn any_limits end ts (place_left end ts left) × (left ≤ length ts) }
    ensures too_deep { (end : ℕ) (ts : List Piece) (left : ℕ)
        → program_of operator_limit parenthesis_limit nesting_limit ts ≡ Err (TooDeep left)
        → IsNotGoingOn the_limits end ts (place_left end ts left) × (1 ≤ left) × (left ≤ length ts) }
{}

/// Places do not matter: other tokens that are the same lexemes spell the same program, places aside.
pub fn places_aside()
    ensures { (l d n : ℕ) (ts us : List Piece) (p : tree.Program)
        → lexemes us ≡ lexemes ts → SpellsProgram l d n ts p
        → ((q : tree.Program) × SpellsProgram l d n us q × (bare_program q ≡ bare_program p)) }
{}
