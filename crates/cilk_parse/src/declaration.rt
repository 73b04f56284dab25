//! How declarations of variables and arrays in bodies are read.

ghost use Rattle.std.specs.Prelude.{◌≡◌, map, MatchResult};
ghost use Rattle.cilk_parse_grammar.specs.lexeme.declared.mark.Mark.TheVariants.{Comma};
ghost use Rattle.cilk_parse_grammar.specs.syntax.Tree as tree;
ghost use Rattle.cilk_parse_grammar.specs.ReadsAs.{Fails, ReadsAs, onto};
ghost use Rattle.cilk_parse_grammar.specs.Forms.{mark, number, commas, behind_commas, in_brackets};
ghost use Rattle.cilk_parse_grammar.specs.Grammar.{declarator, declaration, declarations};
ghost use Rattle.cilk_parse.specs.Limits.{read_by, Joins};

use crate::token::{name, number};
use cilk_parse_grammar::{
    Cursor, Decl, Keyword, Local, LocalNode, Mark, ReadError, Shape, expression,
};
use std::alloc::Global;

/// The length of an array (C 1990, 6.5.4.2).
#[tactic(auto, unfolding(cilk_parse_grammar::specs::Spelling::read_at))]
pub fn array_length(cursor: &mut Cursor) -> Result<u32, ReadError>
    ensures { ReadsAs (λ n. (n, cursor.new.pieces)) result (read_by (in_brackets number) cursor.old.pieces) }
{
    cursor.mark(Mark::OpenBracket)?;
    let length = number(cursor)?;
    cursor.mark(Mark::CloseBracket)?;
    Ok(length)
}

// A name, and its first value or its length (C 1990, 6.5.4.2, 6.5.7).
#[tactic(auto, unfolding(cilk_parse_grammar::specs::Spelling::read_at))]
fn declarator(cursor: &mut Cursor) -> Result<Decl, ReadError>
    ensures { ReadsAs (λ d. (d, cursor.new.pieces)) result (read_by declarator cursor.old.pieces) }
{
    let name = name(cursor)?;
    if cursor.is_mark(Mark::Assign) {
        cursor.mark(Mark::Assign)?;
        let value = expression(cursor)?;
        let shape = Shape::Variable(Some(value));
        return Ok(Decl { name, shape });
    }
    if cursor.is_mark(Mark::OpenBracket) {
        let length = array_length(cursor)?;
        let shape = Shape::Array(length);
        return Ok(Decl { name, shape });
    }
    let shape = Shape::Variable(None);
    Ok(Decl { name, shape })
}

// A comma and a declarator.
#[tactic(auto, unfolding(cilk_parse_grammar::specs::Spelling::read_at))]
fn next_declarator(cursor: &mut Cursor) -> Result<Decl, ReadError>
    ensures { ReadsAs (λ d. (d, cursor.new.pieces)) result (read_by (mark Comma declarator) cursor.old.pieces) }
{
    cursor.mark(Mark::Comma)?;
    declarator(cursor)
}

// Behind these declarators all that follow, each behind a comma.
fn more_declarators(cursor: &mut Cursor, mut declarators: Vec<Decl>) -> Result<Vec<Decl>, ReadError>
    ensures { ReadsAs (λ v. (v.items, cursor.new.pieces)) result
        (onto declarators.items (read_by (behind_commas declarator) cursor.old.pieces)) }
{
    'each: while cursor.is_mark(Mark::Comma) {
        let next = next_declarator(cursor)?;
        declarators.push(next)?;
    }
    Ok(declarators)
}

// One declarator or more, with commas between them.
#[tactic(auto, unfolding(cilk_parse_grammar::specs::Spelling::read_at, cilk_parse_grammar::specs::ReadsAs::onto))]
fn declarators(cursor: &mut Cursor) -> Result<Vec<Decl>, ReadError>
    ensures { ReadsAs (λ v. (v.items, cursor.new.pieces)) result (read_by (commas declarator) cursor.old.pieces) }
{
    let mut all = Vec::new(cursor.alloc());
    let first = declarator(cursor)?;
    all.push(first)?;
    more_declarators(cursor, all)
}

// Each as what is declared in a block.
fn declared(alloc: Global, declarators: Vec<Decl>) -> Result<Vec<Local>, ReadError>
    ensures { MatchResult result (λ v. v.items ≡ map tree.declared declarators.items) (λ e. e ≡ ReadError.Memory) }
{
    let mut locals = Vec::new(alloc);
    'each: for declarator in declarators {
        locals.push(Local {
            node: LocalNode::Decl(declarator),
        })?;
    }
    Ok(locals)
}

/// A declaration of variables and arrays; each is one of its own (C 1990, 6.5).
#[tactic(auto, unfolding(cilk_parse_grammar::specs::Spelling::read_at))]
pub fn declaration(cursor: &mut Cursor) -> Result<Vec<Local>, ReadError>
    ensures { ReadsAs (λ v. (v.items, cursor.new.pieces)) result (read_by declaration cursor.old.pieces) }
{
    cursor.keyword(Keyword::Int)?;
    let all = declarators(cursor)?;
    cursor.mark(Mark::Semicolon)?;
    declared(cursor.alloc(), all)
}

/// Declarations, as many as there are.
pub fn declarations(cursor: &mut Cursor) -> Result<Vec<Local>, ReadError>
    ensures { MatchResult result
        (λ v. Joins (read_by declarations cursor.old.pieces) v.items cursor.new.pieces)
        (λ e. Fails e (read_by declarations cursor.old.pieces)) }
{
    let mut locals = Vec::new(cursor.alloc());
    'each: while cursor.is_keyword(Keyword::Int) {
        let mut next = declaration(cursor)?;
        locals.append(&mut next)?;
    }
    Ok(locals)
}
