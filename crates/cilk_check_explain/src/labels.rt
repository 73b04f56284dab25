//! Labels that say what another label of the same `switch` says: C17.

use crate::reason::Reason;
use crate::say::say;
use crate::site::Site;
use crate::source::Source;
use cilk_check_scopes::{Block, ItemNode, Label, LocalNode, Memory, Program, Stmt, StmtNode};

// The first of the labels of a block with this value.
fn first_of(block: &Block, value: Option<i32>) -> Option<Label> {
    for stmt in &block.stmts {
        if let StmtNode::Labelled(label) = &stmt.node {
            if label.value == value {
                return Some(*label);
            }
        }
    }
    None
}

// The first label that says what the one at a place says, if that is one of the labels of this block.
fn among(block: &Block, at: u32) -> Option<Label> {
    for stmt in &block.stmts {
        if let StmtNode::Labelled(label) = &stmt.node {
            if label.at == at {
                return first_of(block, label.value);
            }
        }
    }
    None
}

#[cycle(in_block)]
fn in_block(block: &Block, at: u32) -> Option<Label> {
    for local in &block.locals {
        if let LocalNode::Inlet(inlet) = &local.node {
            let found = in_block(&inlet.body, at);
            if found.is_some() {
                return found;
            }
        }
    }
    for stmt in &block.stmts {
        let found = in_stmt(stmt, at);
        if found.is_some() {
            return found;
        }
    }
    None
}

#[cycle(in_block)]
fn in_stmt(stmt: &Stmt, at: u32) -> Option<Label> {
    match &stmt.node {
        StmtNode::If(_, body, None)
        | StmtNode::While(_, body)
        | StmtNode::Do(body, _)
        | StmtNode::For(_, _, _, body)
        | StmtNode::Nested(body) => in_block(body, at),
        StmtNode::If(_, body, Some(other)) => {
            let found = in_block(body, at);
            match found {
                Some(_) => found,
                None => in_block(other, at),
            }
        }
        StmtNode::Switch(_, body) => {
            let found = among(body, at);
            match found {
                Some(_) => found,
                None => in_block(body, at),
            }
        }
        _ => None,
    }
}

// The first label that says what the one at a place says, in the same `switch`.
fn first_alike(program: &Program, at: u32) -> Option<Label> {
    for item in &program.items {
        if let ItemNode::Procedure(procedure) = &item.node {
            let found = in_block(&procedure.body, at);
            if found.is_some() {
                return found;
            }
        }
    }
    None
}

// The label that begins with a token, as the text spells it.
fn say_spelled(out: &mut String, source: &Source<'_>, index: usize) -> Result<(), Memory> {
    let word = source.word(index);
    if word != "case" {
        return Reason::named("`$`", word).say(out);
    }
    let value = source.word(index.saturating_add(1));
    let digits = match value {
        "-" => source.word(index.saturating_add(2)),
        _ => "",
    };
    Reason::named("`case $", value).say(out)?;
    Reason::named("$`", digits).say(out)
}

/// C17.
pub(crate) fn say_label(out: &mut String, site: &Site<'_, '_>) -> Result<(), Memory> {
    let source = &site.front.source;
    say_spelled(out, source, site.front.index)?;
    let Some(first) = first_alike(site.program, site.at) else {
        return say(out, " says the same as a label before it");
    };
    say(out, " says the same as ")?;
    say_spelled(out, source, source.index_of(first.at))?;
    Reason::numbered(
        " in line @, and two labels of one `switch` may not",
        source.line(first.at),
    )
    .say(out)
}
