//! With which tokens statements and declarations begin.

ghost use Rattle.std.specs.Prelude.{◌≡◌};
ghost use Rattle.cilk_parse_grammar.specs.Rule.{first, has, class_at};
ghost use Rattle.cilk_parse_grammar.specs.Classes.{cls};
ghost use Rattle.cilk_parse_grammar.specs.Grammar.{label, labelled, local};
ghost use Rattle.cilk_parse_grammar.specs.Parts.{a_statement, no_block};
ghost use Rattle.cilk_parse_grammar.specs.Spelling.{begins, first_of};
ghost use Rattle.cilk_parse.specs.Starts.{other_starts};

use crate::token::is_name;
use cilk_parse_grammar::{Cursor, Keyword, Mark};

// Whether the next token is one with which a statement begins that begins with no name and is no block.
fn begins_otherwise(cursor: &Cursor) -> bool
    ensures { result ≡ has other_starts (class_at cls cursor.now.pieces) }
{
    cursor.is_mark(Mark::Increment)
        || cursor.is_mark(Mark::Decrement)
        || cursor.is_keyword(Keyword::Spawn)
        || cursor.is_mark(Mark::Semicolon)
        || cursor.is_keyword(Keyword::Sync)
        || cursor.is_keyword(Keyword::Abort)
        || cursor.is_keyword(Keyword::Break)
        || cursor.is_keyword(Keyword::Continue)
        || cursor.is_keyword(Keyword::Return)
        || cursor.is_keyword(Keyword::If)
        || cursor.is_keyword(Keyword::While)
        || cursor.is_keyword(Keyword::Do)
        || cursor.is_keyword(Keyword::For)
        || cursor.is_keyword(Keyword::Switch)
}

/// Whether a statement that is no block begins with the next token.
#[tactic(auto, using(crate::proofs::Starting::begins_unbraced))]
pub fn begins_unbraced(cursor: &Cursor) -> bool
    ensures { result ≡ has (begins no_block) (class_at cls cursor.now.pieces) }
{
    is_name(cursor) || begins_otherwise(cursor)
}

/// Whether a statement begins with the next token.
pub fn begins_statement(cursor: &Cursor) -> bool
    ensures { result ≡ has (begins a_statement) (class_at cls cursor.now.pieces) }
{
    cursor.is_mark(Mark::OpenBrace) || begins_unbraced(cursor)
}

/// Whether a declaration or an inlet begins with the next token.
pub fn begins_local(cursor: &Cursor) -> bool
    ensures { result ≡ has (first first_of local) (class_at cls cursor.now.pieces) }
{
    cursor.is_keyword(Keyword::Int) || cursor.is_keyword(Keyword::Inlet)
}

/// Whether a label begins with the next token (C 1990, 6.6.1).
pub fn begins_label(cursor: &Cursor) -> bool
    ensures { result ≡ has (first first_of label) (class_at cls cursor.now.pieces) }
{
    cursor.is_keyword(Keyword::Case) || cursor.is_keyword(Keyword::Default)
}

/// Whether a statement of the block of a `switch`, or a label before it, begins with the next token.
pub fn begins_labelled(cursor: &Cursor) -> bool
    ensures { result ≡ has (first first_of labelled) (class_at cls cursor.now.pieces) }
{
    cursor.is_keyword(Keyword::Case)
        || cursor.is_keyword(Keyword::Default)
        || begins_statement(cursor)
}
