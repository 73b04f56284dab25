//! The canonical lines of statements and blocks.

ghost use Rattle.std.specs.Prelude.{◌≡◌, ◌++◌, codes, if◌then◌else◌, IfOk, string_bytes};
ghost use Rattle.cilk_tree_syntax.specs.StmtView.{if_of};
ghost use Rattle.cilk_tree_syntax.specs.Tree.{nested, repeat, switch, while, inlet_at};
ghost use Rattle.cilk_tree_syntax.specs.Appends.{Appends};
ghost use Rattle.cilk_tree_syntax.specs.Lines.{closed, deeper, ended, text_of};
ghost use Rattle.cilk_tree_syntax.specs.MoveText.{decl_text, locking_text, move_text, print_text, return_text, spawn_text};
ghost use Rattle.cilk_tree_syntax.specs.StmtLines.{block_lines, else_lines, is_label, local_lines, stmt_lines, switch_lines};
ghost use Rattle.cilk_tree_syntax.specs.MoveView.{taker_of};

use crate::head::{
    put_for_line, put_inlet_line, put_label_line, put_line, put_test_line, put_until_line,
};
use crate::line::{put_decl, put_locking, put_move, put_print, put_return, put_spawn};
use crate::put::put;
use cilk_tree_syntax::{
    Block, Decl, Expr, Inlet, Literal, Local, LocalNode, LockAction, Memory, Move, Stmt, StmtNode,
    Taker, Word,
};
use std::alloc::Global;

#[cycle(put_stmt)]
fn put_stmt(alloc: Global, out: &mut String, indent: &str, stmt: &Stmt) -> Result<(), Memory>
    ensures { Appends result out.old out.new (text_of indent.now (stmt_lines stmt.now)) }
{
    match &stmt.node {
        StmtNode::Move(what) => put_move_line(out, indent, what),
        StmtNode::Spawn(_, taker, callee, arguments) => {
            put_spawn_line(out, indent, taker, callee, arguments)
        }
        StmtNode::Print(format, arguments) => put_print_line(out, indent, format, arguments),
        StmtNode::Locking(action, name) => put_locking_line(out, indent, *action, name),
        StmtNode::Null => put_word_line(out, indent, ""),
        StmtNode::Sync(_) => put_word_line(out, indent, "sync"),
        StmtNode::Abort(_) => put_word_line(out, indent, "abort"),
        StmtNode::Break(_) => put_word_line(out, indent, "break"),
        StmtNode::Continue(_) => put_word_line(out, indent, "continue"),
        StmtNode::Return(_, value) => put_return_line(out, indent, value),
        StmtNode::If(test, body, other) => put_if(alloc, out, indent, test, body, other),
        StmtNode::While(test, body) => put_while(alloc, out, indent, test, body),
        StmtNode::Do(body, test) => put_do(alloc, out, indent, body, test),
        StmtNode::For(first, test, advance, body) => {
            put_for_line(out, indent, first, test, advance)?;
            put_body(alloc, out, indent, body)
        }
        StmtNode::Switch(test, body) => put_switch(alloc, out, indent, test, body),
        StmtNode::Labelled(label) => put_label_line(out, indent, *label),
        StmtNode::Nested(inside) => put_nested(alloc, out, indent, inside),
    }
}

fn put_move_line(out: &mut String, indent: &str, what: &Move) -> Result<(), Memory>
    ensures { Appends result out.old out.new (text_of indent.now (ended (move_text what.now))) }
{
    put(out, indent)?;
    put_move(out, what)?;
    put(out, ";\n")
}

fn put_spawn_line(
    out: &mut String,
    indent: &str,
    taker: &Taker,
    callee: &Word,
    arguments: &[Expr],
) -> Result<(), Memory>
    ensures { Appends result out.old out.new (text_of indent.now (ended (spawn_text (taker_of taker.now) callee.now arguments.now))) }
{
    put(out, indent)?;
    put_spawn(out, taker, callee, arguments)?;
    put(out, ";\n")
}

fn put_print_line(
    out: &mut String,
    indent: &str,
    format: &Literal,
    arguments: &[Expr],
) -> Result<(), Memory>
    ensures { Appends result out.old out.new (text_of indent.now (ended (print_text format.now arguments.now))) }
{
    put(out, indent)?;
    put_print(out, format, arguments)?;
    put(out, ";\n")
}

fn put_locking_line(
    out: &mut String,
    indent: &str,
    action: LockAction,
    name: &Word,
) -> Result<(), Memory>
    ensures { Appends result out.old out.new (text_of indent.now (ended (locking_text action name.now))) }
{
    put(out, indent)?;
    put_locking(out, action, name)?;
    put(out, ";\n")
}

// A statement that is one word, or none.
fn put_word_line(out: &mut String, indent: &str, word: &str) -> Result<(), Memory>
    ensures { Appends result out.old out.new (text_of indent.now (ended word.now)) }
{
    put(out, indent)?;
    put(out, word)?;
    put(out, ";\n")
}

fn put_return_line(out: &mut String, indent: &str, value: &Option<Expr>) -> Result<(), Memory>
    ensures { Appends result out.old out.new (text_of indent.now (ended (return_text value.now))) }
{
    put(out, indent)?;
    put_return(out, value)?;
    put(out, ";\n")
}

#[cycle(put_stmt)]
fn put_if(
    alloc: Global,
    out: &mut String,
    indent: &str,
    test: &Expr,
    body: &Block,
    other: &Option<Block>,
) -> Result<(), Memory>
    ensures { Appends result out.old out.new (text_of indent.now (stmt_lines (if_of test.now body.now other.now))) }
{
    put_test_line(out, indent, "if", test)?;
    put_block(alloc, out, indent, body)?;
    put_else(alloc, out, indent, other)
}

#[cycle(put_stmt)]
fn put_else(
    alloc: Global,
    out: &mut String,
    indent: &str,
    other: &Option<Block>,
) -> Result<(), Memory>
    ensures { Appends result out.old out.new (text_of indent.now (else_lines other.now)) }
{
    match other {
        None => put_line(out, indent, "}"),
        Some(other) => {
            put_line(out, indent, "} else {")?;
            put_body(alloc, out, indent, other)
        }
    }
}

#[cycle(put_stmt)]
fn put_while(
    alloc: Global,
    out: &mut String,
    indent: &str,
    test: &Expr,
    body: &Block,
) -> Result<(), Memory>
    ensures { Appends result out.old out.new (text_of indent.now (stmt_lines (while test.now body.now))) }
{
    put_test_line(out, indent, "while", test)?;
    put_body(alloc, out, indent, body)
}

#[cycle(put_stmt)]
fn put_do(
    alloc: Global,
    out: &mut String,
    indent: &str,
    body: &Block,
    test: &Expr,
) -> Result<(), Memory>
    ensures { Appends result out.old out.new (text_of indent.now (stmt_lines (repeat body.now test.now))) }
{
    put_line(out, indent, "do {")?;
    put_block(alloc, out, indent, body)?;
    put_until_line(out, indent, test)
}

#[cycle(put_stmt)]
fn put_switch(
    alloc: Global,
    out: &mut String,
    indent: &str,
    test: &Expr,
    body: &Block,
) -> Result<(), Memory>
    ensures { Appends result out.old out.new (text_of indent.now (stmt_lines (switch test.now body.now))) }
{
    put_test_line(out, indent, "switch", test)?;
    put_cases(alloc, out, indent, body)?;
    put_line(out, indent, "}")
}

#[cycle(put_stmt)]
fn put_nested(alloc: Global, out: &mut String, indent: &str, inside: &Block) -> Result<(), Memory>
    ensures { Appends result out.old out.new (text_of indent.now (stmt_lines (nested inside.now))) }
{
    put_line(out, indent, "{")?;
    put_body(alloc, out, indent, inside)
}

#[cycle(put_stmt)]
fn put_local(alloc: Global, out: &mut String, indent: &str, local: &Local) -> Result<(), Memory>
    ensures { Appends result out.old out.new (text_of indent.now (local_lines local.now)) }
{
    match &local.node {
        LocalNode::Decl(decl) => put_decl_line(out, indent, decl),
        LocalNode::Inlet(inlet) => put_inlet(alloc, out, indent, inlet),
    }
}

fn put_decl_line(out: &mut String, indent: &str, decl: &Decl) -> Result<(), Memory>
    ensures { Appends result out.old out.new (text_of indent.now (ended (decl_text decl.now))) }
{
    put(out, indent)?;
    put_decl(out, decl)?;
    put(out, ";\n")
}

#[cycle(put_stmt)]
fn put_inlet(alloc: Global, out: &mut String, indent: &str, inlet: &Inlet) -> Result<(), Memory>
    ensures { Appends result out.old out.new
        (text_of indent.now (local_lines (inlet_at inlet.now.at inlet.now.name inlet.now.parameters.items inlet.now.body))) }
{
    put_inlet_line(out, indent, &inlet.name, &inlet.parameters)?;
    put_body(alloc, out, indent, &inlet.body)
}

// The lines of a block, one level deeper than `indent`, and the brace that closes it.
#[cycle(put_stmt)]
pub(crate) fn put_body(
    alloc: Global,
    out: &mut String,
    indent: &str,
    body: &Block,
) -> Result<(), Memory>
    ensures { Appends result out.old out.new (text_of indent.now (closed (block_lines body.now))) }
{
    put_block(alloc, out, indent, body)?;
    put_line(out, indent, "}")
}

// The indent of one level more.
fn indent_in(alloc: Global, indent: &str) -> Result<String, Memory>
    ensures { IfOk result (λ s. string_bytes s ≡ indent.now ++ codes "    ") }
{
    let mut inner = String::from_str(alloc, indent)?;
    put(&mut inner, "    ")?;
    Ok(inner)
}

// The lines of a block, one level deeper than `indent`.
#[cycle(put_stmt)]
fn put_block(alloc: Global, out: &mut String, indent: &str, block: &Block) -> Result<(), Memory>
    ensures { Appends result out.old out.new (text_of indent.now (deeper (block_lines block.now))) }
{
    let inner = indent_in(alloc, indent)?;
    for local in &block.locals {
        put_local(alloc, out, inner.as_str(), local)?;
    }
    for stmt in &block.stmts {
        put_stmt(alloc, out, inner.as_str(), stmt)?;
    }
    Ok(())
}

// The lines of the block of a `switch`: the labels at the level of `indent`, and all else one level deeper.
#[cycle(put_stmt)]
fn put_cases(alloc: Global, out: &mut String, indent: &str, block: &Block) -> Result<(), Memory>
    ensures { Appends result out.old out.new (text_of indent.now (switch_lines block.now)) }
{
    let inner = indent_in(alloc, indent)?;
    for local in &block.locals {
        put_local(alloc, out, inner.as_str(), local)?;
    }
    for stmt in &block.stmts {
        put_case(alloc, out, indent, inner.as_str(), stmt)?;
    }
    Ok(())
}

// A label behind one indent, or another statement behind the other.
#[cycle(put_stmt)]
fn put_case(
    alloc: Global,
    out: &mut String,
    indent: &str,
    inner: &str,
    stmt: &Stmt,
) -> Result<(), Memory>
    ensures { Appends result out.old out.new
        (text_of (if is_label stmt.now then indent.now else inner.now) (stmt_lines stmt.now)) }
{
    if is_label(stmt) {
        return put_stmt(alloc, out, indent, stmt);
    }
    put_stmt(alloc, out, inner, stmt)
}

fn is_label(stmt: &Stmt) -> bool
    ensures { result ≡ is_label stmt.now }
{
    matches!(&stmt.node, StmtNode::Labelled(_))
}
