//! The first fault among the uses of names in the statements that a `for` may have in its header, and in what takes the
//! value of a child: first of the names that stand outside expressions, and then of those in expressions.

ghost use Rattle.std.specs.Prelude.{◌≡◌, flat_map};
ghost use Rattle.cilk_check_scopes.specs.syntax.MoveView.{taker_of};
ghost use Rattle.cilk_check_scopes.specs.First.{first_among};
ghost use Rattle.cilk_check_scopes.specs.Parts.{place_exprs, target_exprs, move_exprs, moves_exprs, taker_exprs};
ghost use Rattle.cilk_check_scopes.specs.Uses.{place_role, place_uses, target_uses, move_uses, moves_uses, taker_uses, takes_value};
ghost use Rattle.cilk_check.specs.NameFinds.{use_faults, exprs_faults};

use crate::table::SymbolTable;
use crate::uses::{at_name, in_expr, in_exprs, in_value};
use cilk_check_scopes::{CheckFault, Expr, Move, MoveNode, Place, Role, Taker, Target};

fn place_role(index: &Option<Expr>) -> Role
    ensures { result ≡ place_role index.now }
{
    match index {
        None => Role::Variable,
        Some(_) => Role::Array,
    }
}

#[tactic(auto, using(crate::proofs::UseFaults::uses), unfolding(crate::specs::NameFinds::use_faults))]
fn at_place(names: &SymbolTable, place: &Place, found: Option<CheckFault>) -> Option<CheckFault>
    ensures { result ≡ first_among found (flat_map use_faults (place_uses names.now place.now)) }
{
    at_name(names, &place.name, place_role(&place.index), found)
}

#[tactic(auto, using(crate::proofs::UseFaults::uses))]
fn at_target(
    names: &SymbolTable,
    target: &Option<Target>,
    found: Option<CheckFault>,
) -> Option<CheckFault>
    ensures { result ≡ first_among found (flat_map use_faults (target_uses names.now target.now)) }
{
    match target {
        None => found,
        Some(target) => at_place(names, &target.place, found),
    }
}

#[tactic(auto, using(crate::proofs::UseFaults::uses), unfolding(crate::specs::NameFinds::use_faults))]
pub(crate) fn at_move(
    names: &SymbolTable,
    what: &Move,
    found: Option<CheckFault>,
) -> Option<CheckFault>
    ensures { result ≡ first_among found (flat_map use_faults (move_uses names.now what.now)) }
{
    match &what.node {
        MoveNode::Assign(target, _) => at_place(names, &target.place, found),
        MoveNode::Adjust(place, _) => at_place(names, place, found),
        MoveNode::Call(target, callee, arguments) => {
            let found = at_target(names, target, found);
            let role = Role::Called(arguments.len(), target.is_some());
            at_name(names, callee, role, found)
        }
    }
}

#[tactic(auto, using(crate::proofs::UseFaults::uses))]
pub(crate) fn at_moves(
    names: &SymbolTable,
    what: &Option<Move>,
    found: Option<CheckFault>,
) -> Option<CheckFault>
    ensures { result ≡ first_among found (flat_map use_faults (moves_uses names.now what.now)) }
{
    match what {
        None => found,
        Some(what) => at_move(names, what, found),
    }
}

#[tactic(auto, using(crate::proofs::UseFaults::uses), unfolding(crate::specs::NameFinds::use_faults))]
pub(crate) fn at_taker(
    names: &SymbolTable,
    taker: &Taker,
    found: Option<CheckFault>,
) -> Option<CheckFault>
    ensures { result ≡ first_among found (flat_map use_faults (taker_uses names.now (taker_of taker.now))) }
{
    match taker {
        Taker::Nothing => found,
        Taker::Into(target) => at_place(names, &target.place, found),
        Taker::Through(name, others) => { at_name(names, name, Role::Fed(others.len() + 1), found) }
    }
}

pub(crate) fn takes_value(taker: &Taker) -> bool
    ensures { result ≡ takes_value (taker_of taker.now) }
{
    match taker {
        Taker::Nothing => false,
        Taker::Into(_) | Taker::Through(_, _) => true,
    }
}

#[tactic(auto, using(crate::proofs::UseFaults::uses))]
fn in_place(names: &SymbolTable, place: &Place, found: Option<CheckFault>) -> Option<CheckFault>
    ensures { result ≡ first_among found (exprs_faults names.now (place_exprs place.now)) }
{
    in_value(names, &place.index, found)
}

#[tactic(auto, using(crate::proofs::UseFaults::uses))]
fn in_target(
    names: &SymbolTable,
    target: &Option<Target>,
    found: Option<CheckFault>,
) -> Option<CheckFault>
    ensures { result ≡ first_among found (exprs_faults names.now (target_exprs target.now)) }
{
    match target {
        None => found,
        Some(target) => in_place(names, &target.place, found),
    }
}

#[tactic(auto, using(crate::proofs::UseFaults::uses))]
pub(crate) fn in_move(
    names: &SymbolTable,
    what: &Move,
    found: Option<CheckFault>,
) -> Option<CheckFault>
    ensures { result ≡ first_among found (exprs_faults names.now (move_exprs what.now)) }
{
    match &what.node {
        MoveNode::Assign(target, value) => {
            let found = in_place(names, &target.place, found);
            in_expr(names, value, found)
        }
        MoveNode::Adjust(place, _) => in_place(names, place, found),
        MoveNode::Call(target, _, arguments) => {
            let found = in_target(names, target, found);
            in_exprs(names, arguments, found)
        }
    }
}

#[tactic(auto, using(crate::proofs::UseFaults::uses))]
pub(crate) fn in_moves(
    names: &SymbolTable,
    what: &Option<Move>,
    found: Option<CheckFault>,
) -> Option<CheckFault>
    ensures { result ≡ first_among found (exprs_faults names.now (moves_exprs what.now)) }
{
    match what {
        None => found,
        Some(what) => in_move(names, what, found),
    }
}

#[tactic(auto, using(crate::proofs::UseFaults::uses))]
pub(crate) fn in_taker(
    names: &SymbolTable,
    taker: &Taker,
    found: Option<CheckFault>,
) -> Option<CheckFault>
    ensures { result ≡ first_among found (exprs_faults names.now (taker_exprs (taker_of taker.now))) }
{
    match taker {
        Taker::Nothing => found,
        Taker::Into(target) => in_place(names, &target.place, found),
        Taker::Through(_, others) => in_exprs(names, others, found),
    }
}
