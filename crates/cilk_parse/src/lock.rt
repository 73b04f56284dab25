//! How declarations of locks are read.

ghost use Rattle.std.specs.Prelude.{◌≡◌, map, MatchResult};
ghost use Rattle.cilk_lex.specs.lexeme.declared.mark.Mark.TheVariants.{Comma};
ghost use Rattle.cilk_parse_grammar.specs.syntax.Tree as tree;
ghost use Rattle.cilk_parse_grammar.specs.ReadsAs.{ReadsAs, onto};
ghost use Rattle.cilk_parse_grammar.specs.Forms.{mark, behind_commas, commas};
ghost use Rattle.cilk_parse_grammar.specs.Grammar.{name, lock_item};
ghost use Rattle.cilk_parse_grammar.specs.Spelling.{nesting_limit};
ghost use Rattle.cilk_parse.specs.Limits.{read_in};

use crate::token::name;
use cilk_parse_grammar::{Cursor, Item, ItemNode, Keyword, Mark, ReadError, Word};
use std::alloc::Global;

// A comma and a name.
#[tactic(auto, unfolding(cilk_parse_grammar::specs::Spelling::read_at))]
fn next_name(cursor: &mut Cursor) -> Result<Word, ReadError>
    ensures { ReadsAs (λ w. (w, cursor.new.pieces)) result (read_in nesting_limit (mark Comma name) cursor.old.pieces) }
{
    cursor.mark(Mark::Comma)?;
    name(cursor)
}

// Behind these names all that follow, each behind a comma.
fn more_names(cursor: &mut Cursor, mut names: Vec<Word>) -> Result<Vec<Word>, ReadError>
    ensures { ReadsAs (λ v. (v.items, cursor.new.pieces)) result
        (onto names.items (read_in nesting_limit (behind_commas name) cursor.old.pieces)) }
{
    'each: while cursor.is_mark(Mark::Comma) {
        let next = next_name(cursor)?;
        names.push(next)?;
    }
    Ok(names)
}

// One name or more, with commas between them.
#[tactic(auto, unfolding(cilk_parse_grammar::specs::Spelling::read_at, cilk_parse_grammar::specs::ReadsAs::onto))]
fn names(cursor: &mut Cursor) -> Result<Vec<Word>, ReadError>
    ensures { ReadsAs (λ v. (v.items, cursor.new.pieces)) result (read_in nesting_limit (commas name) cursor.old.pieces) }
{
    let mut all = Vec::new(cursor.alloc());
    let first = name(cursor)?;
    all.push(first)?;
    more_names(cursor, all)
}

// Each as a lock.
fn as_items(alloc: Global, names: Vec<Word>) -> Result<Vec<Item>, ReadError>
    ensures { MatchResult result (λ v. v.items ≡ map tree.lock names.items) (λ e. e ≡ ReadError.Memory) }
{
    let mut items = Vec::new(alloc);
    'each: for name in names {
        items.push(Item {
            node: ItemNode::Lock(name),
        })?;
    }
    Ok(items)
}

/// Locks that are declared together (Cilk 5.4 manual, locks).
#[tactic(auto, unfolding(cilk_parse_grammar::specs::Spelling::read_at))]
pub fn locks(cursor: &mut Cursor) -> Result<Vec<Item>, ReadError>
    ensures { ReadsAs (λ v. (v.items, cursor.new.pieces)) result (read_in nesting_limit lock_item cursor.old.pieces) }
{
    cursor.keyword(Keyword::CilkLockvar)?;
    let all = names(cursor)?;
    cursor.mark(Mark::Semicolon)?;
    as_items(cursor.alloc(), all)
}
