//! How statements that begin with a name are read: moves, and spawns whose value is taken.

ghost use Rattle.cilk_parse_grammar.specs.ReadsAs.{ReadsAs};
ghost use Rattle.cilk_parse_grammar.specs.Grammar.{called, written, named};
ghost use Rattle.cilk_parse.specs.Limits.{read_by};
ghost use Rattle.cilk_parse.specs.StatementViews.{called_by, written_to};

use crate::action::Action;
use crate::arguments::{behind_commas, expressions, index};
use crate::call_form::CallForm;
use crate::child::child;
use crate::place::{adjustment, is_operator, operator};
use crate::token::plain_name;
use crate::value::value;
use crate::write_form::WriteForm;
use cilk_parse_grammar::{Cursor, Keyword, Mark, Place, ReadError, Stmt};

// What stands behind a name that is called.
#[tactic(auto, unfolding(cilk_parse_grammar::specs::Spelling::read_at))]
fn called(cursor: &mut Cursor) -> Result<CallForm, ReadError>
    ensures { ReadsAs (λ c. (called_by c, cursor.new.pieces)) result (read_by called cursor.old.pieces) }
{
    cursor.mark(Mark::OpenParenthesis)?;
    if cursor.is_keyword(Keyword::Spawn) {
        let child = child(cursor)?;
        let others = behind_commas(cursor)?;
        cursor.mark(Mark::CloseParenthesis)?;
        return Ok(CallForm::Inlet(child, others));
    }
    if !cursor.begins_expression() {
        cursor.mark(Mark::CloseParenthesis)?;
        return Ok(CallForm::Function(Vec::new(cursor.alloc())));
    }
    let arguments = expressions(cursor)?;
    cursor.mark(Mark::CloseParenthesis)?;
    Ok(CallForm::Function(arguments))
}

// What stands behind a place to which is written.
#[tactic(auto, unfolding(cilk_parse_grammar::specs::Spelling::read_at))]
fn written(cursor: &mut Cursor) -> Result<WriteForm, ReadError>
    ensures { ReadsAs (λ w. (written_to w, cursor.new.pieces)) result (read_by written cursor.old.pieces) }
{
    if !is_operator(cursor) {
        let by = adjustment(cursor)?;
        return Ok(WriteForm::Done(Action::Adjust(by)));
    }
    let op = operator(cursor)?;
    if cursor.is_keyword(Keyword::Spawn) {
        let child = child(cursor)?;
        return Ok(WriteForm::Spawned(op, child));
    }
    let value = value(cursor)?;
    Ok(WriteForm::Done(Action::Write(op, value)))
}

/// A move or a spawn that begins with a name (C 1990, 6.6.3; Cilk 5.4 manual, `spawn`, `inlet`).
#[tactic(auto, unfolding(cilk_parse_grammar::specs::Spelling::read_at))]
pub fn named(cursor: &mut Cursor) -> Result<Stmt, ReadError>
    ensures { ReadsAs (λ s. (s, cursor.new.pieces)) result (read_by named cursor.old.pieces) }
{
    let name = plain_name(cursor)?;
    if cursor.is_mark(Mark::OpenParenthesis) {
        let call = match called(cursor) {
            Ok(call) => call,
            Err(e) => {
                drop(name);
                return Err(e);
            }
        };
        if let Err(e) = cursor.mark(Mark::Semicolon) {
            drop(name);
            drop(call);
            return Err(e);
        }
        return Ok(call.by(name));
    }
    let index = match index(cursor) {
        Ok(index) => index,
        Err(e) => {
            drop(name);
            return Err(e);
        }
    };
    let place = Place { name, index };
    let write = match written(cursor) {
        Ok(write) => write,
        Err(e) => {
            drop(place);
            return Err(e);
        }
    };
    if let Err(e) = cursor.mark(Mark::Semicolon) {
        drop(place);
        drop(write);
        return Err(e);
    }
    Ok(write.to(place))
}
