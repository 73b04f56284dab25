//! The first fault in the forms of a body. Each function takes the first fault that was found so far, and answers the
//! first of it and of those in its own part.

ghost use Rattle.std.specs.Prelude.{◌≡◌, ◌++◌, IfOk};
ghost use Rattle.cilk_check_scopes.specs.syntax.Tree as tree;
ghost use Rattle.cilk_check_scopes.specs.syntax.Tree.{locals_of, stmts_of};
ghost use Rattle.cilk_check_scopes.specs.First.{first_among};
ghost use Rattle.cilk_check_scopes.specs.Forms.{labels_of};
ghost use Rattle.cilk_check_scopes.specs.Parts as parts;
ghost use Rattle.cilk_check.specs.FormFinds.{part_faults, block_faults, locals_faults, inside_local, stmts_faults, inside_stmt};
ghost use Rattle.cilk_check.specs.FormFinds.{labels_faults, nothing_said, expr_faults};

use crate::children::{in_expr, in_move};
use crate::forms_of_statement::{at_header, at_print, at_return, at_spawn, is_inlet};
use crate::labels::at_labels;
use crate::local::{at_decl, at_inlet};
use cilk_check_scopes::{
    Block, CheckFault, Expr, Local, LocalNode, Memory, Owner, Stmt, StmtNode, Within, at_word,
    first_if,
};
use std::alloc::Global;

#[cycle(in_block)]
#[tactic(auto, using(crate::proofs::Walks::walks))]
pub(crate) fn in_block(
    alloc: Global,
    within: Within,
    block: &Block,
    found: Option<CheckFault>,
) -> Result<Option<CheckFault>, Memory>
    ensures { IfOk result (λ f. f ≡ first_among found (block_faults within block.now)) }
{
    let found = in_locals(alloc, within, &block.locals, found)?;
    in_stmts(alloc, within, &block.stmts, found)
}

#[cycle(in_block)]
#[tactic(auto, using(crate::proofs::Walks::walks))]
fn in_locals(
    alloc: Global,
    within: Within,
    locals: &[Local],
    found: Option<CheckFault>,
) -> Result<Option<CheckFault>, Memory>
    ensures { IfOk result (λ f. f ≡ first_among found (locals_faults within (locals_of locals.now))) }
{
    let mut found = found;
    for local in locals {
        found = at_local(within, local, found);
        found = inside_local(alloc, local, found)?;
    }
    Ok(found)
}

#[cycle(in_block)]
#[tactic(auto, using(crate::proofs::Walks::walks))]
fn inside_local(
    alloc: Global,
    local: &Local,
    found: Option<CheckFault>,
) -> Result<Option<CheckFault>, Memory>
    ensures { IfOk result (λ f. f ≡ first_among found (inside_local local.now)) }
{
    match &local.node {
        LocalNode::Decl(_) => Ok(found),
        LocalNode::Inlet(inlet) => in_block(
            alloc,
            Within::whole_body(Owner::Inlet),
            &inlet.body,
            found,
        ),
    }
}

#[cycle(in_block)]
#[tactic(auto, using(crate::proofs::Walks::walks))]
fn in_stmts(
    alloc: Global,
    within: Within,
    stmts: &[Stmt],
    found: Option<CheckFault>,
) -> Result<Option<CheckFault>, Memory>
    ensures { IfOk result (λ f. f ≡ first_among found (stmts_faults within (stmts_of stmts.now))) }
{
    let mut found = found;
    for stmt in stmts {
        found = at_stmt(alloc, within, stmt, found)?;
        found = inside_stmt(alloc, within, stmt, found)?;
    }
    Ok(found)
}

#[cycle(in_block)]
#[tactic(auto, using(crate::proofs::Walks::walks))]
fn inside_stmt(
    alloc: Global,
    within: Within,
    stmt: &Stmt,
    found: Option<CheckFault>,
) -> Result<Option<CheckFault>, Memory>
    ensures { IfOk result (λ f. f ≡ first_among found (inside_stmt within stmt.now)) }
{
    match &stmt.node {
        StmtNode::If(_, body, other) => {
            let found = in_block(alloc, within.inner_block(), body, found)?;
            match other {
                None => Ok(found),
                Some(other) => in_block(alloc, within.inner_block(), other, found),
            }
        }
        StmtNode::While(_, body) | StmtNode::Do(body, _) | StmtNode::For(_, _, _, body) => {
            in_block(alloc, within.loop_block(), body, found)
        }
        StmtNode::Switch(_, body) => in_block(alloc, within.switch_block(), body, found),
        StmtNode::Nested(inside) => in_block(alloc, within.inner_block(), inside, found),
        StmtNode::Move(_)
        | StmtNode::Spawn(_, _, _, _)
        | StmtNode::Print(_, _)
        | StmtNode::Locking(_, _)
        | StmtNode::Null
        | StmtNode::Sync(_)
        | StmtNode::Abort(_)
        | StmtNode::Break(_)
        | StmtNode::Continue(_)
        | StmtNode::Return(_, _)
        | StmtNode::Labelled(_) => Ok(found),
    }
}

// A declaration itself.
#[tactic(auto, using(crate::proofs::Walks::walks), unfolding(crate::specs::FormFinds::part_faults))]
fn at_local(within: Within, local: &Local, found: Option<CheckFault>) -> Option<CheckFault>
    ensures { result ≡ first_among found (part_faults within (parts.local local.now)) }
{
    match &local.node {
        LocalNode::Decl(decl) => at_decl(within.owner, decl, found),
        LocalNode::Inlet(inlet) => at_inlet(within, inlet, found),
    }
}

// A statement itself, without the blocks inside it.
#[tactic(auto, using(crate::proofs::Walks::walks), unfolding(crate::specs::FormFinds::part_faults))]
fn at_stmt(
    alloc: Global,
    within: Within,
    stmt: &Stmt,
    found: Option<CheckFault>,
) -> Result<Option<CheckFault>, Memory>
    ensures { IfOk result (λ f. f ≡ first_among found (part_faults within (parts.statement stmt.now))) }
{
    let owner = within.owner;
    Ok(match &stmt.node {
        StmtNode::Move(what) => in_move(owner, what, found),
        StmtNode::Spawn(at, taker, _, arguments) => at_spawn(owner, *at, taker, arguments, found),
        StmtNode::Print(format, arguments) => at_print(owner, format, arguments, found),
        StmtNode::Sync(at) => at_word(owner, *at, found),
        StmtNode::Abort(at) => first_if(found, !is_inlet(owner), CheckFault::AbortOutside(*at)),
        StmtNode::Break(at) => first_if(found, !within.in_loop_or_switch, CheckFault::NoLoop(*at)),
        StmtNode::Continue(at) => first_if(found, !within.in_loop, CheckFault::NoLoop(*at)),
        StmtNode::Return(at, value) => at_return(owner, *at, value, found),
        StmtNode::If(test, _, _) | StmtNode::While(test, _) | StmtNode::Do(_, test) => {
            in_expr(owner, test, found)
        }
        StmtNode::For(first, test, advance, _) => at_header(owner, first, test, advance, found),
        StmtNode::Switch(test, body) => at_switch(alloc, owner, test, body, found)?,
        StmtNode::Locking(_, _) | StmtNode::Null | StmtNode::Labelled(_) | StmtNode::Nested(_) =>
            found,
    })
}

// The labels of a `switch`, and its test.
#[tactic(auto, using(crate::proofs::Walks::walks))]
fn at_switch(
    alloc: Global,
    owner: Owner,
    test: &Expr,
    body: &Block,
    found: Option<CheckFault>,
) -> Result<Option<CheckFault>, Memory>
    ensures { IfOk result (λ f. f ≡ first_among found (labels_faults nothing_said (labels_of body.now) ++ expr_faults owner test.now)) }
{
    let found = at_labels(alloc, &body.stmts, found)?;
    Ok(in_expr(owner, test, found))
}
