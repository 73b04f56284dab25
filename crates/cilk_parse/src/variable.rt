//! How variables and arrays of the top level are read, with their first values and lengths.

ghost use Rattle.std.specs.Prelude.{◌≡◌, ◌∷◌, map, MatchResult};
ghost use Rattle.cilk_lex.specs.lexeme.declared.mark.Mark.TheVariants.{Comma};
ghost use Rattle.cilk_parse_grammar.specs.syntax.Tree as tree;
ghost use Rattle.cilk_parse_grammar.specs.syntax.ProgramView.{global_shape_of};
ghost use Rattle.cilk_parse_grammar.specs.ReadsAs.{ReadsAs, onto};
ghost use Rattle.cilk_parse_grammar.specs.Forms.{mark, behind_commas};
ghost use Rattle.cilk_parse_grammar.specs.Grammar.{global_shape, global};
ghost use Rattle.cilk_parse_grammar.specs.Spelling.{nesting_limit};
ghost use Rattle.cilk_parse.specs.Limits.{read_in};

use crate::declaration::array_length;
use crate::signed::integer;
use crate::token::name;
use cilk_parse_grammar::{Cursor, Global, GlobalShape, Item, ItemNode, Mark, ReadError};
use std::alloc;

/// Behind the name of a variable or array of the top level (C 1990, 6.5.4.2, 6.5.7, 6.7.2).
#[tactic(auto, unfolding(cilk_parse_grammar::specs::Spelling::read_at))]
pub fn shape(cursor: &mut Cursor) -> Result<GlobalShape, ReadError>
    ensures { ReadsAs (λ s. (global_shape_of s, cursor.new.pieces)) result (read_in nesting_limit global_shape cursor.old.pieces) }
{
    if cursor.is_mark(Mark::Assign) {
        cursor.mark(Mark::Assign)?;
        let value = integer(cursor)?;
        return Ok(GlobalShape::Variable(Some(value)));
    }
    if cursor.is_mark(Mark::OpenBracket) {
        let length = array_length(cursor)?;
        return Ok(GlobalShape::Array(length));
    }
    Ok(GlobalShape::Variable(None))
}

// A comma, and a variable or array.
#[tactic(auto, unfolding(cilk_parse_grammar::specs::Spelling::read_at))]
fn next_global(cursor: &mut Cursor) -> Result<Global, ReadError>
    ensures { ReadsAs (λ g. (g, cursor.new.pieces)) result (read_in nesting_limit (mark Comma global) cursor.old.pieces) }
{
    cursor.mark(Mark::Comma)?;
    let name = name(cursor)?;
    let shape = shape(cursor)?;
    Ok(Global { name, shape })
}

// Behind these all that follow, each behind a comma.
fn more_globals(cursor: &mut Cursor, mut globals: Vec<Global>) -> Result<Vec<Global>, ReadError>
    ensures { ReadsAs (λ v. (v.items, cursor.new.pieces)) result
        (onto globals.items (read_in nesting_limit (behind_commas global) cursor.old.pieces)) }
{
    'each: while cursor.is_mark(Mark::Comma) {
        let next = next_global(cursor)?;
        globals.push(next)?;
    }
    Ok(globals)
}

/// Variables and arrays, each behind a comma.
#[tactic(auto, using(cilk_parse_grammar::proofs::Loops::onto_nothing))]
pub fn behind_commas(cursor: &mut Cursor) -> Result<Vec<Global>, ReadError>
    ensures { ReadsAs (λ v. (v.items, cursor.new.pieces)) result
        (read_in nesting_limit (behind_commas global) cursor.old.pieces) }
{
    more_globals(cursor, Vec::new(cursor.alloc()))
}

/// Each as what stands at the top level.
pub fn as_items(
    alloc: alloc::Global,
    first: Global,
    others: Vec<Global>,
) -> Result<Vec<Item>, ReadError>
    ensures { MatchResult result (λ v. v.items ≡ map tree.global (first ∷ others.items)) (λ e. e ≡ ReadError.Memory) }
{
    let mut items = Vec::new(alloc);
    items.push(Item {
        node: ItemNode::Global(first),
    })?;
    'each: for global in others {
        items.push(Item {
            node: ItemNode::Global(global),
        })?;
    }
    Ok(items)
}
