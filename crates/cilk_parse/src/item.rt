//! How a procedure, a function, or variables of the top level are read, from their first word on.

ghost use Rattle.std.specs.Prelude.{◌≡◌, ◌∷◌, [], true, false};
ghost use Rattle.cilk_parse_grammar.specs.ReadsAs.{ReadsAs};
ghost use Rattle.cilk_parse_grammar.specs.Classes.{the_main, names};
ghost use Rattle.cilk_parse_grammar.specs.Grammar.{names_but_main, headed, tail, main_tail, function, globals, cilk_item, int_item, void_item};
ghost use Rattle.cilk_parse_grammar.specs.Rule.{and_then, either, done};
ghost use Rattle.cilk_lex.specs.lexeme.declared.keyword.Keyword.TheVariants as key;
ghost use Rattle.cilk_parse_grammar.specs.syntax.declared.return_type.ReturnType.TheVariants as returns;
ghost use Rattle.cilk_parse.specs.Views.{int_tail_of};
ghost use Rattle.cilk_parse_grammar.specs.Forms.{word};
ghost use Rattle.cilk_parse_grammar.specs.Parts.{the_name};
ghost use Rattle.cilk_parse_grammar.specs.Spelling.{leaf_at, nesting_limit};
ghost use Rattle.cilk_parse.specs.Limits.{read_in};

use crate::function::function_tail;
use crate::int_tail::{IntTail, one};
use crate::main_function::of_main;
use crate::token::{is_class, name};
use crate::variable::{behind_commas, shape};
use cilk_parse_grammar::{Cursor, Item, Keyword, Mark, NameClass, ReadError, ReturnType, Word};

// The name `main`.
#[tactic(auto, using(crate::proofs::Tokens::some_name))]
fn main_name(cursor: &mut Cursor) -> Result<Word, ReadError>
    ensures { ReadsAs (λ w. (w, cursor.new.pieces)) result (leaf_at (the_name (the_main ∷ [])) cursor.old.pieces) }
{
    if !is_class(cursor, NameClass::Main) {
        return Err(cursor.unexpected());
    }
    cursor.name()
}

// A name that is not `main`.
#[tactic(auto, using(crate::proofs::NamesButMain::not_main, crate::proofs::NamesButMain::but_main))]
fn name_but_main(cursor: &mut Cursor) -> Result<Word, ReadError>
    ensures { ReadsAs (λ w. (w, cursor.new.pieces)) result (leaf_at (the_name names_but_main) cursor.old.pieces) }
{
    if is_class(cursor, NameClass::Main) {
        return Err(cursor.unexpected());
    }
    name(cursor)
}

// A Cilk procedure that returns nothing (Cilk 5.4 manual, `cilk`).
#[tactic(auto, unfolding(cilk_parse_grammar::specs::Spelling::read_at))]
fn void_procedure(cursor: &mut Cursor) -> Result<Vec<Item>, ReadError>
    ensures { ReadsAs (λ v. (v.items, cursor.new.pieces)) result
        (read_in nesting_limit (word key.Void (headed true returns.Void names tail)) cursor.old.pieces) }
{
    cursor.keyword(Keyword::Void)?;
    let name = name(cursor)?;
    let tail = function_tail(cursor)?;
    one(cursor.alloc(), tail.function(true, ReturnType::Void, name))
}

// A Cilk procedure that returns an `int` (Cilk 5.4 manual, `cilk`).
#[tactic(auto, unfolding(cilk_parse_grammar::specs::Spelling::read_at))]
fn int_procedure(cursor: &mut Cursor) -> Result<Vec<Item>, ReadError>
    ensures { ReadsAs (λ v. (v.items, cursor.new.pieces)) result
        (read_in nesting_limit (word key.Int (either (headed true returns.Int (the_main ∷ []) main_tail)
        (headed true returns.Int names_but_main tail))) cursor.old.pieces) }
{
    cursor.keyword(Keyword::Int)?;
    if is_class(cursor, NameClass::Main) {
        let name = main_name(cursor)?;
        let tail = of_main(cursor)?;
        return one(cursor.alloc(), tail.function(true, ReturnType::Int, name));
    }
    let name = name_but_main(cursor)?;
    let tail = function_tail(cursor)?;
    one(cursor.alloc(), tail.function(true, ReturnType::Int, name))
}

/// A Cilk procedure (Cilk 5.4 manual, `cilk`).
#[tactic(auto, unfolding(cilk_parse_grammar::specs::Spelling::read_at))]
pub fn procedure(cursor: &mut Cursor) -> Result<Vec<Item>, ReadError>
    ensures { ReadsAs (λ v. (v.items, cursor.new.pieces)) result
        (read_in nesting_limit cilk_item cursor.old.pieces) }
{
    cursor.keyword(Keyword::Cilk)?;
    if cursor.is_keyword(Keyword::Void) {
        return void_procedure(cursor);
    }
    int_procedure(cursor)
}

/// A C function that returns nothing (C 1990, 6.7.1).
#[tactic(auto, unfolding(cilk_parse_grammar::specs::Spelling::read_at))]
pub fn void_function(cursor: &mut Cursor) -> Result<Vec<Item>, ReadError>
    ensures { ReadsAs (λ v. (v.items, cursor.new.pieces)) result (read_in nesting_limit void_item cursor.old.pieces) }
{
    cursor.keyword(Keyword::Void)?;
    let name = name(cursor)?;
    let tail = function_tail(cursor)?;
    one(cursor.alloc(), tail.function(false, ReturnType::Void, name))
}

// Behind the name of a variable or array, with those that are declared together with it (C 1990, 6.7.2).
#[tactic(auto, unfolding(cilk_parse_grammar::specs::Spelling::read_at))]
fn variables(cursor: &mut Cursor) -> Result<IntTail, ReadError>
    ensures { ReadsAs (λ t. (int_tail_of t, cursor.new.pieces)) result
        (read_in nesting_limit globals cursor.old.pieces) }
{
    let shape = shape(cursor)?;
    let others = behind_commas(cursor)?;
    cursor.mark(Mark::Semicolon)?;
    Ok(IntTail::Variables(shape, others))
}

// Behind `int` and a name.
#[tactic(auto, unfolding(cilk_parse_grammar::specs::Spelling::read_at))]
fn int_tail(cursor: &mut Cursor) -> Result<IntTail, ReadError>
    ensures { ReadsAs (λ t. (int_tail_of t, cursor.new.pieces)) result
        (read_in nesting_limit (either (and_then tail (done (λ t x. function false returns.Int t x ∷ []))) globals) cursor.old.pieces) }
{
    if cursor.is_mark(Mark::OpenParenthesis) {
        let tail = function_tail(cursor)?;
        return Ok(IntTail::Function(tail));
    }
    variables(cursor)
}

/// A C function that returns an `int`, or variables and arrays that are declared together (C 1990, 6.7.1, 6.7.2).
#[tactic(auto, unfolding(cilk_parse_grammar::specs::Spelling::read_at))]
pub fn int_item(cursor: &mut Cursor) -> Result<Vec<Item>, ReadError>
    ensures { ReadsAs (λ v. (v.items, cursor.new.pieces)) result (read_in nesting_limit int_item cursor.old.pieces) }
{
    cursor.keyword(Keyword::Int)?;
    let name = name(cursor)?;
    let rest = int_tail(cursor)?;
    rest.behind(cursor.alloc(), name)
}
