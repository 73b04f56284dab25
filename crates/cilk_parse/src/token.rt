//! How single tokens are read and told apart: names by their class, words, numbers, text literals and headers.

ghost use Rattle.std.specs.Prelude.{◌≡◌, ◌∷◌, []};
ghost use Rattle.cilk_parse_grammar.specs.ReadsAs.{ReadsAs};
ghost use Rattle.cilk_parse_grammar.specs.Rule.{has, is, class_at};
ghost use Rattle.cilk_parse_grammar.specs.Classes.{cls, names, the_lock_init, the_lock, the_unlock};
ghost use Rattle.cilk_parse_grammar.specs.Grammar.{plain_names};
ghost use Rattle.cilk_parse.specs.ClassNumbers.{number_of};
ghost use Rattle.cilk_parse_grammar.specs.Forms.{name_of, keyword_place, number};
ghost use Rattle.cilk_parse_grammar.specs.Parts.{token, the_word, the_name, the_number, the_literal, the_header};
ghost use Rattle.cilk_parse_grammar.specs.Spelling.{leaf_at};

use cilk_parse_grammar::{Cursor, Header, Keyword, Literal, NameClass, ReadError, Word};

/// Whether the next token is a name.
pub fn is_name(cursor: &Cursor) -> bool
    ensures { result ≡ has names (class_at cls cursor.now.pieces) }
{
    cursor.name_class().is_some()
}

/// Whether the next token is a name of this class.
pub fn is_class(cursor: &Cursor, wanted: NameClass) -> bool
    ensures { result ≡ is (number_of wanted) (class_at cls cursor.now.pieces) }
{
    cursor.name_class() == Some(wanted)
}

/// Whether the next token is a name with which a move or spawn may begin.
pub fn is_plain_name(cursor: &Cursor) -> bool
    ensures { result ≡ has plain_names (class_at cls cursor.now.pieces) }
{
    is_class(cursor, NameClass::Main)
        || is_class(cursor, NameClass::Char)
        || is_class(cursor, NameClass::Other)
}

/// Whether the next token is the name of a call of a lock.
pub fn is_lock_call(cursor: &Cursor) -> bool
    ensures { result ≡ has (the_lock_init ∷ the_lock ∷ the_unlock ∷ []) (class_at cls cursor.now.pieces) }
{
    is_class(cursor, NameClass::LockInit)
        || is_class(cursor, NameClass::Lock)
        || is_class(cursor, NameClass::Unlock)
}

/// A name with which a move or spawn may begin.
#[tactic(auto, using(crate::proofs::Tokens::some_name))]
pub fn plain_name(cursor: &mut Cursor) -> Result<Word, ReadError>
    ensures { ReadsAs (λ w. (w, cursor.new.pieces)) result (leaf_at (the_name plain_names) cursor.old.pieces) }
{
    if !is_plain_name(cursor) {
        return Err(cursor.unexpected());
    }
    cursor.name()
}

/// A name.
#[tactic(auto, using(crate::proofs::Tokens::any_name))]
pub fn name(cursor: &mut Cursor) -> Result<Word, ReadError>
    ensures { ReadsAs (λ w. (w, cursor.new.pieces)) result (leaf_at (the_name names) cursor.old.pieces) }
{
    cursor.name()
}

/// The place of this word.
#[tactic(auto, using(crate::proofs::Tokens::a_word_is))]
pub fn keyword_place(cursor: &mut Cursor, word: Keyword) -> Result<u32, ReadError>
    ensures { ReadsAs (λ at. (at, cursor.new.pieces)) result (leaf_at (the_word word) cursor.old.pieces) }
{
    let at = cursor.place();
    cursor.keyword(word)?;
    Ok(at)
}

/// A number.
#[tactic(auto, using(crate::proofs::Tokens::a_number_is))]
pub fn number(cursor: &mut Cursor) -> Result<u32, ReadError>
    ensures { ReadsAs (λ n. (n, cursor.new.pieces)) result (leaf_at the_number cursor.old.pieces) }
{
    cursor.number()
}

/// What a text literal says.
#[tactic(auto, using(crate::proofs::Tokens::a_literal_is))]
pub fn literal(cursor: &mut Cursor) -> Result<Literal, ReadError>
    ensures { ReadsAs (λ l. (l, cursor.new.pieces)) result (leaf_at the_literal cursor.old.pieces) }
{
    cursor.literal()
}

/// The header that is included.
#[tactic(auto, using(crate::proofs::Tokens::a_header_is))]
pub fn header(cursor: &mut Cursor) -> Result<Header, ReadError>
    ensures { ReadsAs (λ h. (h, cursor.new.pieces)) result (leaf_at the_header cursor.old.pieces) }
{
    cursor.header()
}
