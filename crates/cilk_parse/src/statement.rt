//! How statements, blocks and inlets are read, one in another, within the limit of nesting.

ghost use Rattle.std.specs.Prelude.{◌≡◌, MatchResult};
ghost use Rattle.cilk_parse_grammar.specs.ReadsAs.{ReadsAs, Fails};
ghost use Rattle.cilk_parse_grammar.specs.Expressions.{operator_limit, parenthesis_limit};
ghost use Rattle.cilk_parse_grammar.specs.Grammar.{local, locals, statements, block, body, conditional, looping, repeating, for_loop, no_block_rule};
ghost use Rattle.cilk_parse_grammar.specs.Grammar.{labelled, all_labelled, cases, switching};
ghost use Rattle.cilk_parse_grammar.specs.Parts.{a_statement, no_block, an_inlet};
ghost use Rattle.cilk_parse_grammar.specs.Spelling.{nest_at};
ghost use Rattle.cilk_parse.specs.Limits.{read_in, Joins};
ghost use Rattle.cilk_parse.specs.Chains.{compounds, by_words};

use crate::begins::{begins_labelled, begins_local, begins_statement, begins_unbraced};
use crate::declaration::{declaration, declarations};
use crate::label::labels;
use crate::loop_header::{loop_test, move_before, test};
use crate::named::named;
use crate::parameters::parameters;
use crate::simple::{
    aborting, adjusting, breaking, continuing, locking, printing, returning, spawning, syncing,
};
use crate::token::{is_class, is_lock_call, is_plain_name, keyword_place, name};
use cilk_parse_grammar::{
    Block, Cursor, Inlet, Keyword, Local, LocalNode, Mark, NameClass, ReadError, Stmt, StmtNode,
};

// `if` (C 1990, 6.6.4.1).
#[cycle(statement)]
#[tactic(auto, unfolding(cilk_parse_grammar::specs::Spelling::read_at))]
fn conditional(cursor: &mut Cursor, depth: u32) -> Result<Stmt, ReadError>
    ensures { ReadsAs (λ s. (s, cursor.new.pieces)) result (read_in depth conditional cursor.old.pieces) }
{
    cursor.keyword(Keyword::If)?;
    let test = test(cursor)?;
    let first = body(cursor, depth)?;
    if !cursor.is_keyword(Keyword::Else) {
        return Ok(Stmt {
            node: StmtNode::If(test, first, None),
        });
    }
    cursor.keyword(Keyword::Else)?;
    let other = body(cursor, depth)?;
    Ok(Stmt {
        node: StmtNode::If(test, first, Some(other)),
    })
}

// `while` (C 1990, 6.6.5.1).
#[cycle(statement)]
#[tactic(auto, unfolding(cilk_parse_grammar::specs::Spelling::read_at))]
fn looping(cursor: &mut Cursor, depth: u32) -> Result<Stmt, ReadError>
    ensures { ReadsAs (λ s. (s, cursor.new.pieces)) result (read_in depth looping cursor.old.pieces) }
{
    cursor.keyword(Keyword::While)?;
    let test = test(cursor)?;
    let body = body(cursor, depth)?;
    Ok(Stmt {
        node: StmtNode::While(test, body),
    })
}

// `do` (C 1990, 6.6.5.2).
#[cycle(statement)]
#[tactic(auto, unfolding(cilk_parse_grammar::specs::Spelling::read_at))]
fn repeating(cursor: &mut Cursor, depth: u32) -> Result<Stmt, ReadError>
    ensures { ReadsAs (λ s. (s, cursor.new.pieces)) result (read_in depth repeating cursor.old.pieces) }
{
    cursor.keyword(Keyword::Do)?;
    let body = body(cursor, depth)?;
    cursor.keyword(Keyword::While)?;
    let test = test(cursor)?;
    cursor.mark(Mark::Semicolon)?;
    Ok(Stmt {
        node: StmtNode::Do(body, test),
    })
}

// `for` (C 1990, 6.6.5.3).
#[cycle(statement)]
#[tactic(auto, unfolding(cilk_parse_grammar::specs::Spelling::read_at))]
fn for_loop(cursor: &mut Cursor, depth: u32) -> Result<Stmt, ReadError>
    ensures { ReadsAs (λ s. (s, cursor.new.pieces)) result (read_in depth for_loop cursor.old.pieces) }
{
    cursor.keyword(Keyword::For)?;
    cursor.mark(Mark::OpenParenthesis)?;
    let first = move_before(cursor, Mark::Semicolon)?;
    let test = match loop_test(cursor) {
        Ok(test) => test,
        Err(e) => {
            drop(first);
            return Err(e);
        }
    };
    let advance = match move_before(cursor, Mark::CloseParenthesis) {
        Ok(advance) => advance,
        Err(e) => {
            drop(first);
            return Err(e);
        }
    };
    let body = match body(cursor, depth) {
        Ok(body) => body,
        Err(e) => {
            drop(first);
            drop(advance);
            return Err(e);
        }
    };
    Ok(Stmt {
        node: StmtNode::For(first, test, advance, body),
    })
}

// A statement of the block of a `switch`, and its labels before it (C 1990, 6.6.1).
#[cycle(statement)]
#[tactic(auto, unfolding(cilk_parse_grammar::specs::Spelling::read_at))]
fn labelled(cursor: &mut Cursor, depth: u32) -> Result<Vec<Stmt>, ReadError>
    ensures { ReadsAs (λ v. (v.items, cursor.new.pieces)) result (read_in depth labelled cursor.old.pieces) }
{
    let mut stmts = labels(cursor)?;
    let last = match statement(cursor, depth) {
        Ok(last) => last,
        Err(e) => {
            drop(stmts);
            return Err(e);
        }
    };
    stmts.push(last)?;
    Ok(stmts)
}

// All of them.
#[cycle(statement)]
fn all_labelled(cursor: &mut Cursor, depth: u32) -> Result<Vec<Stmt>, ReadError>
    ensures { MatchResult result
        (λ v. Joins (read_in depth all_labelled cursor.old.pieces) v.items cursor.new.pieces)
        (λ e. Fails e (read_in depth all_labelled cursor.old.pieces)) }
{
    let mut stmts = Vec::new(cursor.alloc());
    'each: while begins_labelled(cursor) {
        let mut next = labelled(cursor, depth)?;
        stmts.append(&mut next)?;
    }
    Ok(stmts)
}

// The block of a `switch` (C 1990, 6.6.4.2).
#[cycle(statement)]
#[tactic(auto, unfolding(cilk_parse_grammar::specs::Spelling::read_at))]
fn cases(cursor: &mut Cursor, depth: u32) -> Result<Block, ReadError>
    ensures { ReadsAs (λ b. (b, cursor.new.pieces)) result (read_in depth cases cursor.old.pieces) }
{
    cursor.mark(Mark::OpenBrace)?;
    let locals = declarations(cursor)?;
    let stmts = match all_labelled(cursor, depth) {
        Ok(stmts) => stmts,
        Err(e) => {
            drop(locals);
            return Err(e);
        }
    };
    if let Err(e) = cursor.mark(Mark::CloseBrace) {
        drop(locals);
        drop(stmts);
        return Err(e);
    }
    Ok(Block { locals, stmts })
}

// `switch` (C 1990, 6.6.4.2).
#[cycle(statement)]
#[tactic(auto, unfolding(cilk_parse_grammar::specs::Spelling::read_at))]
fn switching(cursor: &mut Cursor, depth: u32) -> Result<Stmt, ReadError>
    ensures { ReadsAs (λ s. (s, cursor.new.pieces)) result (read_in depth switching cursor.old.pieces) }
{
    cursor.keyword(Keyword::Switch)?;
    let test = test(cursor)?;
    let body = cases(cursor, depth)?;
    Ok(Stmt {
        node: StmtNode::Switch(test, body),
    })
}

// A statement that has others in it, and is no block.
#[cycle(statement)]
#[tactic(auto, unfolding(cilk_parse_grammar::specs::Spelling::read_at))]
fn compound(cursor: &mut Cursor, depth: u32) -> Result<Stmt, ReadError>
    ensures { ReadsAs (λ s. (s, cursor.new.pieces)) result (read_in depth compounds cursor.old.pieces) }
{
    if cursor.is_keyword(Keyword::If) {
        return conditional(cursor, depth);
    }
    if cursor.is_keyword(Keyword::While) {
        return looping(cursor, depth);
    }
    if cursor.is_keyword(Keyword::Do) {
        return repeating(cursor, depth);
    }
    if cursor.is_keyword(Keyword::For) {
        return for_loop(cursor, depth);
    }
    switching(cursor, depth)
}

// A statement that begins with a word, but for `spawn`, or is empty (C 1990, 6.6.3).
#[cycle(statement)]
#[tactic(auto, unfolding(cilk_parse_grammar::specs::Spelling::read_at))]
fn by_word(cursor: &mut Cursor, depth: u32) -> Result<Stmt, ReadError>
    ensures { ReadsAs (λ s. (s, cursor.new.pieces)) result (read_in depth by_words cursor.old.pieces) }
{
    if cursor.is_mark(Mark::Semicolon) {
        cursor.mark(Mark::Semicolon)?;
        return Ok(Stmt {
            node: StmtNode::Null,
        });
    }
    if cursor.is_keyword(Keyword::Sync) {
        return syncing(cursor);
    }
    if cursor.is_keyword(Keyword::Abort) {
        return aborting(cursor);
    }
    if cursor.is_keyword(Keyword::Break) {
        return breaking(cursor);
    }
    if cursor.is_keyword(Keyword::Continue) {
        return continuing(cursor);
    }
    if cursor.is_keyword(Keyword::Return) {
        return returning(cursor);
    }
    compound(cursor, depth)
}

// A statement that is no block (C 1990, 6.6).
#[cycle(statement)]
#[tactic(auto, unfolding(cilk_parse_grammar::specs::Spelling::read_at))]
fn no_block(cursor: &mut Cursor, depth: u32) -> Result<Stmt, ReadError>
    ensures { ReadsAs (λ s. (s, cursor.new.pieces)) result (read_in depth no_block_rule cursor.old.pieces) }
{
    if is_plain_name(cursor) {
        return named(cursor);
    }
    if cursor.is_mark(Mark::Increment) || cursor.is_mark(Mark::Decrement) {
        return adjusting(cursor);
    }
    if is_class(cursor, NameClass::Printf) {
        return printing(cursor);
    }
    if is_lock_call(cursor) {
        return locking(cursor);
    }
    if cursor.is_keyword(Keyword::Spawn) {
        return spawning(cursor);
    }
    by_word(cursor, depth)
}

// The same, where it is the body of another.
#[cycle(statement)]
#[tactic(auto, unfolding(cilk_parse_grammar::specs::Spelling::read_at, cilk_parse_grammar::specs::Spelling::nest_at))]
fn unbraced(cursor: &mut Cursor, depth: u32) -> Result<Stmt, ReadError>
    ensures { ReadsAs (λ s. (s, cursor.new.pieces)) result
        (nest_at operator_limit parenthesis_limit depth no_block cursor.old.pieces) }
{
    if !begins_unbraced(cursor) {
        return Err(cursor.unexpected());
    }
    if depth == 0 {
        return Err(cursor.too_deep());
    }
    no_block(cursor, depth - 1)
}

// A statement as the body of another (C 1990, 6.6.2).
#[cycle(statement)]
#[tactic(auto, unfolding(cilk_parse_grammar::specs::Spelling::read_at))]
fn body(cursor: &mut Cursor, depth: u32) -> Result<Block, ReadError>
    ensures { ReadsAs (λ b. (b, cursor.new.pieces)) result (read_in depth body cursor.old.pieces) }
{
    if cursor.is_mark(Mark::OpenBrace) {
        return block(cursor, depth);
    }
    let one = unbraced(cursor, depth)?;
    let mut stmts = Vec::new(cursor.alloc());
    stmts.push(one)?;
    let locals = Vec::new(cursor.alloc());
    Ok(Block { locals, stmts })
}

// An inlet (Cilk 5.4 manual, `inlet`).
#[cycle(statement)]
#[tactic(auto, unfolding(cilk_parse_grammar::specs::Spelling::read_at, cilk_parse_grammar::specs::Spelling::nest_at))]
fn inlet(cursor: &mut Cursor, depth: u32) -> Result<Local, ReadError>
    ensures { ReadsAs (λ l. (l, cursor.new.pieces)) result
        (nest_at operator_limit parenthesis_limit depth an_inlet cursor.old.pieces) }
{
    if !cursor.is_keyword(Keyword::Inlet) {
        return Err(cursor.unexpected());
    }
    if depth == 0 {
        return Err(cursor.too_deep());
    }
    let at = keyword_place(cursor, Keyword::Inlet)?;
    cursor.keyword(Keyword::Void)?;
    let name = name(cursor)?;
    let parameters = parameters(cursor)?;
    let body = block(cursor, depth - 1)?;
    Ok(Local {
        node: LocalNode::Inlet(Inlet {
            at,
            name,
            parameters,
            body,
        }),
    })
}

// What one declaration declares, or an inlet.
#[cycle(statement)]
#[tactic(auto, unfolding(cilk_parse_grammar::specs::Spelling::read_at))]
fn local(cursor: &mut Cursor, depth: u32) -> Result<Vec<Local>, ReadError>
    ensures { ReadsAs (λ v. (v.items, cursor.new.pieces)) result (read_in depth local cursor.old.pieces) }
{
    if cursor.is_keyword(Keyword::Int) {
        return declaration(cursor);
    }
    let one = inlet(cursor, depth)?;
    let mut locals = Vec::new(cursor.alloc());
    locals.push(one)?;
    Ok(locals)
}

// What is declared at the head of a block (C 1990, 6.6.2).
#[cycle(statement)]
fn locals(cursor: &mut Cursor, depth: u32) -> Result<Vec<Local>, ReadError>
    ensures { MatchResult result
        (λ v. Joins (read_in depth locals cursor.old.pieces) v.items cursor.new.pieces)
        (λ e. Fails e (read_in depth locals cursor.old.pieces)) }
{
    let mut locals = Vec::new(cursor.alloc());
    'each: while begins_local(cursor) {
        let mut next = local(cursor, depth)?;
        locals.append(&mut next)?;
    }
    Ok(locals)
}

// Statements in order.
#[cycle(statement)]
fn statements(cursor: &mut Cursor, depth: u32) -> Result<Vec<Stmt>, ReadError>
    ensures { ReadsAs (λ v. (v.items, cursor.new.pieces)) result (read_in depth statements cursor.old.pieces) }
{
    let mut stmts = Vec::new(cursor.alloc());
    'each: while begins_statement(cursor) {
        let next = statement(cursor, depth)?;
        stmts.push(next)?;
    }
    Ok(stmts)
}

/// A block, in whose statements and inlets others may stand so deep (C 1990, 6.6.2; Cilk 5.4 manual, `inlet`).
#[cycle(statement)]
#[tactic(auto, unfolding(cilk_parse_grammar::specs::Spelling::read_at))]
pub fn block(cursor: &mut Cursor, depth: u32) -> Result<Block, ReadError>
    ensures { ReadsAs (λ b. (b, cursor.new.pieces)) result (read_in depth block cursor.old.pieces) }
{
    cursor.mark(Mark::OpenBrace)?;
    let locals = locals(cursor, depth)?;
    let stmts = statements(cursor, depth)?;
    cursor.mark(Mark::CloseBrace)?;
    Ok(Block { locals, stmts })
}

// A statement (C 1990, 6.6).
#[cycle(statement)]
#[tactic(auto, unfolding(cilk_parse_grammar::specs::Spelling::read_at, cilk_parse_grammar::specs::Spelling::nest_at))]
fn statement(cursor: &mut Cursor, depth: u32) -> Result<Stmt, ReadError>
    ensures { ReadsAs (λ s. (s, cursor.new.pieces)) result
        (nest_at operator_limit parenthesis_limit depth a_statement cursor.old.pieces) }
{
    if !begins_statement(cursor) {
        return Err(cursor.unexpected());
    }
    if depth == 0 {
        return Err(cursor.too_deep());
    }
    if cursor.is_mark(Mark::OpenBrace) {
        let inside = block(cursor, depth - 1)?;
        return Ok(Stmt {
            node: StmtNode::Nested(inside),
        });
    }
    no_block(cursor, depth - 1)
}
