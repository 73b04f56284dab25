//! The first fault among the labels of a `switch`.

ghost use Rattle.std.specs.Prelude.{◌≡◌, ◌++◌, ℤ, true, List, Option, IfOk, OnOk, if◌then◌else◌};
ghost use Rattle.cilk_check_scopes.specs.syntax.Tree as tree;
ghost use Rattle.cilk_check_scopes.specs.syntax.Tree.{stmts_of};
ghost use Rattle.cilk_check_scopes.specs.declared.fault.CheckFault.TheVariants as fault;
ghost use Rattle.cilk_check_scopes.specs.First.{first_among, fault_if};
ghost use Rattle.cilk_check_scopes.specs.Forms.{own_label, stmts_labels};
ghost use Rattle.cilk_check.specs.FormFinds.{labels_faults, nothing_said, same_value};
ghost use Rattle.cilk_check.specs.Said.{said_in};

use cilk_check_scopes::{CheckFault, Label, Memory, Stmt, StmtNode, first_if};
use std::alloc::Global;
use std::collections::BTreeSet;

/// The labels that stand among these statements, and not in blocks inside them.
#[tactic(auto, using(crate::proofs::Walks::walks))]
pub(crate) fn at_labels(
    alloc: Global,
    stmts: &[Stmt],
    found: Option<CheckFault>,
) -> Result<Option<CheckFault>, Memory>
    ensures { IfOk result (λ f. f ≡ first_among found (labels_faults nothing_said (stmts_labels (stmts_of stmts.now)))) }
{
    let mut said = BTreeSet::new(alloc);
    let mut found = found;
    for stmt in stmts {
        found = at_stmt(&mut said, stmt, found)?;
    }
    Ok(found)
}

// A statement, which may be a label, and then says what the set has from now on.
fn at_stmt(
    said: &mut BTreeSet<Option<i32>>,
    stmt: &Stmt,
    found: Option<CheckFault>,
) -> Result<Option<CheckFault>, Memory>
    ensures { IfOk result (λ f. (later : List tree.Label) → first_among f (labels_faults (said_in said.new) later)
        ≡ first_among found (labels_faults (said_in said.old) (own_label stmt.now ++ later))) }
{
    match &stmt.node {
        StmtNode::Labelled(label) => at_label(said, *label, found),
        StmtNode::Move(_)
        | StmtNode::Spawn(_, _, _, _)
        | StmtNode::Print(_, _)
        | StmtNode::Locking(_, _)
        | StmtNode::Null
        | StmtNode::Sync(_)
        | StmtNode::Abort(_)
        | StmtNode::Break(_)
        | StmtNode::Continue(_)
        | StmtNode::Return(_, _)
        | StmtNode::If(_, _, _)
        | StmtNode::While(_, _)
        | StmtNode::Do(_, _)
        | StmtNode::For(_, _, _, _)
        | StmtNode::Switch(_, _)
        | StmtNode::Nested(_) => Ok(found),
    }
}

fn at_label(
    said: &mut BTreeSet<Option<i32>>,
    label: Label,
    found: Option<CheckFault>,
) -> Result<Option<CheckFault>, Memory>
    ensures first { IfOk result (λ f. f ≡ first_among found (fault_if (said_in said.old label.value) (fault.Label label.at))) }
    ensures said { OnOk result ((v : Option ℤ) → said_in said.new v ≡ (if same_value label.value v then true else said_in said.old v)) }
{
    let is_new = said.insert(label.value)?;
    Ok(first_if(found, !is_new, CheckFault::Label(label.at)))
}
