//! The first fault among the uses of names in a statement itself, without the blocks inside it.

ghost use Rattle.std.specs.Prelude.{◌≡◌, ◌∷◌, ◌++◌, flat_map};
ghost use Rattle.cilk_check_scopes.specs.syntax.MoveView.{taker_of};
ghost use Rattle.cilk_check_scopes.specs.First.{first_among};
ghost use Rattle.cilk_check_scopes.specs.Parts as parts;
ghost use Rattle.cilk_check_scopes.specs.Parts.{moves_exprs, stmt_exprs, taker_exprs};
ghost use Rattle.cilk_check_scopes.specs.Uses.{stmt_uses};
ghost use Rattle.cilk_check.specs.NameFinds.{use_faults, exprs_faults, part_faults};

use crate::moves::{at_move, at_moves, at_taker, in_move, in_moves, in_taker, takes_value};
use crate::table::SymbolTable;
use crate::uses::{at_name, in_expr, in_exprs, in_value};
use cilk_check_scopes::{CheckFault, Expr, Move, Role, Stmt, StmtNode, Taker};

#[tactic(auto, using(crate::proofs::UseFaults::uses), unfolding(crate::specs::NameFinds::part_faults))]
pub(crate) fn at_stmt(
    names: &SymbolTable,
    stmt: &Stmt,
    found: Option<CheckFault>,
) -> Option<CheckFault>
    ensures { result ≡ first_among found (part_faults names.now (parts.statement stmt.now)) }
{
    let found = at_own_names(names, stmt, found);
    in_own_exprs(names, stmt, found)
}

// The names that stand outside expressions.
#[tactic(auto, using(crate::proofs::UseFaults::uses), unfolding(crate::specs::NameFinds::use_faults))]
fn at_own_names(names: &SymbolTable, stmt: &Stmt, found: Option<CheckFault>) -> Option<CheckFault>
    ensures { result ≡ first_among found (flat_map use_faults (stmt_uses names.now stmt.now)) }
{
    match &stmt.node {
        StmtNode::Move(what) => at_move(names, what, found),
        StmtNode::Spawn(_, taker, callee, arguments) => {
            let found = at_taker(names, taker, found);
            let role = Role::Spawned(arguments.len(), takes_value(taker));
            at_name(names, callee, role, found)
        }
        StmtNode::Locking(_, name) => at_name(names, name, Role::Lock, found),
        StmtNode::For(first, _, advance, _) => {
            let found = at_moves(names, first, found);
            at_moves(names, advance, found)
        }
        StmtNode::Print(_, _)
        | StmtNode::Null
        | StmtNode::Sync(_)
        | StmtNode::Abort(_)
        | StmtNode::Break(_)
        | StmtNode::Continue(_)
        | StmtNode::Return(_, _)
        | StmtNode::If(_, _, _)
        | StmtNode::While(_, _)
        | StmtNode::Do(_, _)
        | StmtNode::Switch(_, _)
        | StmtNode::Labelled(_)
        | StmtNode::Nested(_) => found,
    }
}

#[tactic(auto, using(crate::proofs::UseFaults::uses))]
fn in_own_exprs(names: &SymbolTable, stmt: &Stmt, found: Option<CheckFault>) -> Option<CheckFault>
    ensures { result ≡ first_among found (exprs_faults names.now (stmt_exprs stmt.now)) }
{
    match &stmt.node {
        StmtNode::Move(what) => in_move(names, what, found),
        StmtNode::Spawn(_, taker, _, arguments) => in_spawn(names, taker, arguments, found),
        StmtNode::Print(_, arguments) => in_exprs(names, arguments, found),
        StmtNode::Return(_, value) => in_value(names, value, found),
        StmtNode::If(test, _, _)
        | StmtNode::While(test, _)
        | StmtNode::Do(_, test)
        | StmtNode::Switch(test, _) => in_expr(names, test, found),
        StmtNode::For(first, test, advance, _) => in_header(names, first, test, advance, found),
        StmtNode::Locking(_, _)
        | StmtNode::Null
        | StmtNode::Sync(_)
        | StmtNode::Abort(_)
        | StmtNode::Break(_)
        | StmtNode::Continue(_)
        | StmtNode::Labelled(_)
        | StmtNode::Nested(_) => found,
    }
}

#[tactic(auto, using(crate::proofs::UseFaults::uses))]
fn in_spawn(
    names: &SymbolTable,
    taker: &Taker,
    arguments: &[Expr],
    found: Option<CheckFault>,
) -> Option<CheckFault>
    ensures { result ≡ first_among found (exprs_faults names.now (taker_exprs (taker_of taker.now) ++ arguments.now)) }
{
    let found = in_taker(names, taker, found);
    in_exprs(names, arguments, found)
}

// What stands in the parentheses of a `for`.
#[tactic(auto, using(crate::proofs::UseFaults::uses))]
fn in_header(
    names: &SymbolTable,
    first: &Option<Move>,
    test: &Expr,
    advance: &Option<Move>,
    found: Option<CheckFault>,
) -> Option<CheckFault>
    ensures { result ≡ first_among found (exprs_faults names.now (moves_exprs first.now ++ test.now ∷ moves_exprs advance.now)) }
{
    let found = in_moves(names, first, found);
    let found = in_expr(names, test, found);
    in_moves(names, advance, found)
}
