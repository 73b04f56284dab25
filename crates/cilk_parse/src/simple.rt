//! How statements that hold no others are read, but for moves and spawns that begin with a name.

ghost use Rattle.cilk_parse_grammar.specs.ReadsAs.{ReadsAs};
ghost use Rattle.cilk_parse_grammar.specs.lexeme.declared.keyword.Keyword.TheVariants as key;
ghost use Rattle.cilk_parse_grammar.specs.syntax.Tree as tree;
ghost use Rattle.cilk_parse_grammar.specs.Grammar.{adjusting, spawning, printing, locking, alone, returning};
ghost use Rattle.cilk_parse.specs.Limits.{read_by};

use crate::arguments::behind_commas;
use crate::child::child;
use crate::place::adjusted;
use crate::token::{is_class, keyword_place, literal, name};
use cilk_parse_grammar::{
    Cursor, Keyword, LockAction, Mark, NameClass, ReadError, Stmt, StmtNode, Taker, expression,
};

/// `++` or `--` and a place (C 1990, 6.3.3.1).
#[tactic(auto, unfolding(cilk_parse_grammar::specs::Spelling::read_at))]
pub fn adjusting(cursor: &mut Cursor) -> Result<Stmt, ReadError>
    ensures { ReadsAs (λ s. (s, cursor.new.pieces)) result (read_by adjusting cursor.old.pieces) }
{
    let what = adjusted(cursor)?;
    if let Err(e) = cursor.mark(Mark::Semicolon) {
        drop(what);
        return Err(e);
    }
    Ok(Stmt {
        node: StmtNode::Move(what),
    })
}

/// A child whose value nothing takes (Cilk 5.4 manual, `spawn`).
#[tactic(auto, unfolding(cilk_parse_grammar::specs::Spelling::read_at))]
pub fn spawning(cursor: &mut Cursor) -> Result<Stmt, ReadError>
    ensures { ReadsAs (λ s. (s, cursor.new.pieces)) result (read_by spawning cursor.old.pieces) }
{
    let child = child(cursor)?;
    cursor.mark(Mark::Semicolon)?;
    Ok(child.given(Taker::Nothing))
}

/// A call of `printf` (C 1990, 7.9.6.3).
#[tactic(auto, unfolding(cilk_parse_grammar::specs::Spelling::read_at))]
pub fn printing(cursor: &mut Cursor) -> Result<Stmt, ReadError>
    ensures { ReadsAs (λ s. (s, cursor.new.pieces)) result (read_by printing cursor.old.pieces) }
{
    if !is_class(cursor, NameClass::Printf) {
        return Err(cursor.unexpected());
    }
    cursor.advance();
    cursor.mark(Mark::OpenParenthesis)?;
    let format = literal(cursor)?;
    let arguments = behind_commas(cursor)?;
    cursor.mark(Mark::CloseParenthesis)?;
    cursor.mark(Mark::Semicolon)?;
    Ok(Stmt {
        node: StmtNode::Print(format, arguments),
    })
}

/// One of the three calls of a lock (Cilk 5.4 manual, locks).
#[tactic(auto, unfolding(cilk_parse_grammar::specs::Spelling::read_at))]
pub fn locking(cursor: &mut Cursor) -> Result<Stmt, ReadError>
    ensures { ReadsAs (λ s. (s, cursor.new.pieces)) result (read_by locking cursor.old.pieces) }
{
    let action = if is_class(cursor, NameClass::LockInit) {
        LockAction::Init
    } else if is_class(cursor, NameClass::Lock) {
        LockAction::Lock
    } else if is_class(cursor, NameClass::Unlock) {
        LockAction::Unlock
    } else {
        return Err(cursor.unexpected());
    };
    cursor.advance();
    cursor.mark(Mark::OpenParenthesis)?;
    let name = name(cursor)?;
    cursor.mark(Mark::CloseParenthesis)?;
    cursor.mark(Mark::Semicolon)?;
    Ok(Stmt {
        node: StmtNode::Locking(action, name),
    })
}

/// `sync` (Cilk 5.4 manual, `sync`).
#[tactic(auto, unfolding(cilk_parse_grammar::specs::Spelling::read_at))]
pub fn syncing(cursor: &mut Cursor) -> Result<Stmt, ReadError>
    ensures { ReadsAs (λ s. (s, cursor.new.pieces)) result (read_by (alone key.Sync (λ at. tree.sync_at at)) cursor.old.pieces) }
{
    let at = keyword_place(cursor, Keyword::Sync)?;
    cursor.mark(Mark::Semicolon)?;
    Ok(Stmt {
        node: StmtNode::Sync(at),
    })
}

/// `abort` (Cilk 5.4 manual, `abort`).
#[tactic(auto, unfolding(cilk_parse_grammar::specs::Spelling::read_at))]
pub fn aborting(cursor: &mut Cursor) -> Result<Stmt, ReadError>
    ensures { ReadsAs (λ s. (s, cursor.new.pieces)) result (read_by (alone key.Abort (λ at. tree.abort_at at)) cursor.old.pieces) }
{
    let at = keyword_place(cursor, Keyword::Abort)?;
    cursor.mark(Mark::Semicolon)?;
    Ok(Stmt {
        node: StmtNode::Abort(at),
    })
}

/// `break` (C 1990, 6.6.6.3).
#[tactic(auto, unfolding(cilk_parse_grammar::specs::Spelling::read_at))]
pub fn breaking(cursor: &mut Cursor) -> Result<Stmt, ReadError>
    ensures { ReadsAs (λ s. (s, cursor.new.pieces)) result (read_by (alone key.Break (λ at. tree.break_at at)) cursor.old.pieces) }
{
    let at = keyword_place(cursor, Keyword::Break)?;
    cursor.mark(Mark::Semicolon)?;
    Ok(Stmt {
        node: StmtNode::Break(at),
    })
}

/// `continue` (C 1990, 6.6.6.2).
#[tactic(auto, unfolding(cilk_parse_grammar::specs::Spelling::read_at))]
pub fn continuing(cursor: &mut Cursor) -> Result<Stmt, ReadError>
    ensures { ReadsAs (λ s. (s, cursor.new.pieces)) result (read_by (alone key.Continue (λ at. tree.continue_at at)) cursor.old.pieces) }
{
    let at = keyword_place(cursor, Keyword::Continue)?;
    cursor.mark(Mark::Semicolon)?;
    Ok(Stmt {
        node: StmtNode::Continue(at),
    })
}

/// `return` and what is returned, if anything is (C 1990, 6.6.6.4).
#[tactic(auto, unfolding(cilk_parse_grammar::specs::Spelling::read_at))]
pub fn returning(cursor: &mut Cursor) -> Result<Stmt, ReadError>
    ensures { ReadsAs (λ s. (s, cursor.new.pieces)) result (read_by returning cursor.old.pieces) }
{
    let at = keyword_place(cursor, Keyword::Return)?;
    if !cursor.begins_expression() {
        cursor.mark(Mark::Semicolon)?;
        return Ok(Stmt {
            node: StmtNode::Return(at, None),
        });
    }
    let value = expression(cursor)?;
    cursor.mark(Mark::Semicolon)?;
    Ok(Stmt {
        node: StmtNode::Return(at, Some(value)),
    })
}
