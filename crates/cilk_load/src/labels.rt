//! Where the labels of a `switch` lead.

ghost use Rattle.std.specs.Prelude.{◌≡◌, ◌+◌, ◌≤◌, ◌++◌, IfOk, OnOk};
ghost use Rattle.cilk_tree_syntax.specs.Tree.{stmts_of};
ghost use Rattle.cilk_load_nodes.specs.labelled.Count.{count_stmts};
ghost use Rattle.cilk_load.specs.Firsts.{first_if};
ghost use Rattle.cilk_load.specs.Pass.{value_case, value_in, is_default, cases_in, default_in};

use crate::counts::{actions, actions_of_stmts};
use crate::firsts::first_if;
use crate::room::NoRoom;
use cilk_load_nodes::{Case, Cases};
use cilk_tree_syntax::{Stmt, StmtNode};
use std::alloc::Global;

/// The cases among the statements of a `switch`, whose next action is `at`, and behind which `next` comes.
pub(crate) fn cases_in(
    alloc: Global,
    at: u32,
    stmts: &[Stmt],
    next: Option<u32>,
) -> Result<Cases, NoRoom>
    requires { at + count_stmts (stmts_of stmts.now) ≤ 65535 }
    ensures { IfOk result (λ cases. cases ≡ cases_in at (stmts_of stmts.now) next) }
{
    let mut cases = Vec::new(alloc);
    let mut at = at;
    let mut left = actions_of_stmts(stmts);
    for stmt in stmts {
        let count = actions(stmt);
        left -= count;
        at += count;
        put_case(&mut cases, stmt, left, at, next)?;
    }
    Ok(Cases::new(cases))
}

// Appends the case that a statement is, if it is one, behind which so many actions are left.
fn put_case(
    cases: &mut Vec<Case>,
    stmt: &Stmt,
    left: u32,
    at: u32,
    next: Option<u32>,
) -> Result<(), NoRoom>
    ensures { OnOk result (cases.new.items ≡ cases.old.items ++ value_case (value_in stmt.now) (first_if left at next)) }
{
    if let Some(value) = value_of(stmt) {
        let to = first_if(left, at, next);
        cases.push(Case { value, to })?;
    }
    Ok(())
}

/// Where the `default` among them leads, or else what comes behind the `switch`.
pub(crate) fn default_in(at: u32, stmts: &[Stmt], next: Option<u32>) -> Option<u32>
    requires { at + count_stmts (stmts_of stmts.now) ≤ 65535 }
    ensures { result ≡ default_in at (stmts_of stmts.now) next }
{
    let mut at = at;
    let mut left = actions_of_stmts(stmts);
    for stmt in stmts {
        let count = actions(stmt);
        left -= count;
        at += count;
        if is_default(stmt) {
            return first_if(left, at, next);
        }
    }
    next
}

// The value of a `case`, if a statement is one.
fn value_of(stmt: &Stmt) -> Option<i32>
    ensures { result ≡ value_in stmt.now }
{
    match &stmt.node {
        StmtNode::Labelled(label) => label.value,
        _ => None,
    }
}

fn is_default(stmt: &Stmt) -> bool
    ensures { result ≡ is_default stmt.now }
{
    match &stmt.node {
        StmtNode::Labelled(label) => label.value.is_none(),
        _ => false,
    }
}
