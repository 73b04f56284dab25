//! How all items of a program are read, and with which tokens one begins.

ghost use Rattle.std.specs.Prelude.{◌≡◌, MatchResult};
ghost use Rattle.cilk_parse_grammar.specs.ReadsAs.{ReadsAs, Fails};
ghost use Rattle.cilk_parse_grammar.specs.Rule.{many, first, has, class_at};
ghost use Rattle.cilk_parse_grammar.specs.Classes.{cls};
ghost use Rattle.cilk_parse_grammar.specs.Grammar.{item};
ghost use Rattle.cilk_parse_grammar.specs.Spelling.{first_of, nesting_limit};
ghost use Rattle.cilk_parse.specs.Limits.{read_in, Joins};

use crate::item::{int_item, procedure, void_function};
use crate::lock::locks;
use cilk_parse_grammar::{Cursor, Item, Keyword, ReadError};

// Whether an item begins with the next token.
fn begins_item(cursor: &Cursor) -> bool
    ensures { result ≡ has (first first_of item) (class_at cls cursor.now.pieces) }
{
    cursor.is_keyword(Keyword::Cilk)
        || cursor.is_keyword(Keyword::Int)
        || cursor.is_keyword(Keyword::Void)
        || cursor.is_keyword(Keyword::CilkLockvar)
}

// What is declared or defined together at the top level (C 1990, 6.7; Cilk 5.4 manual, `cilk`, locks).
#[tactic(auto, unfolding(cilk_parse_grammar::specs::Spelling::read_at))]
fn any_item(cursor: &mut Cursor) -> Result<Vec<Item>, ReadError>
    ensures { ReadsAs (λ v. (v.items, cursor.new.pieces)) result (read_in nesting_limit item cursor.old.pieces) }
{
    if cursor.is_keyword(Keyword::Cilk) {
        return procedure(cursor);
    }
    if cursor.is_keyword(Keyword::Int) {
        return int_item(cursor);
    }
    if cursor.is_keyword(Keyword::Void) {
        return void_function(cursor);
    }
    locks(cursor)
}

/// All items from the next token on, up to the first token with which none begins, in the order of the text. Fails
/// where one does not go on, or for want of memory (C 1990, 6.7; Cilk 5.4 manual, `cilk`, locks).
pub fn items(cursor: &mut Cursor) -> Result<Vec<Item>, ReadError>
    ensures { MatchResult result
        (λ v. Joins (read_in nesting_limit (many item) cursor.old.pieces) v.items cursor.new.pieces)
        (λ e. Fails e (read_in nesting_limit (many item) cursor.old.pieces)) }
{
    let mut items = Vec::new(cursor.alloc());
    'each: while begins_item(cursor) {
        let mut next = any_item(cursor)?;
        items.append(&mut next)?;
    }
    Ok(items)
}
