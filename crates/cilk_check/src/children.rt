//! The first fault among the words `spawn`, `sync` and `SYNCHED` of a part. Each function takes the first fault that was
//! found so far, and answers the first of it and of those in its own part.

ghost use Rattle.std.specs.Prelude.{◌≡◌};
ghost use Rattle.cilk_check_scopes.specs.syntax.MoveView.{taker_of};
ghost use Rattle.cilk_check_scopes.specs.First.{first_among};
ghost use Rattle.cilk_check_scopes.specs.Parts.{place_exprs, target_exprs, move_exprs, moves_exprs, taker_exprs};
ghost use Rattle.cilk_check.specs.FormFinds.{expr_faults, exprs_faults, value_faults};

use cilk_check_scopes::{
    CheckFault, Expr, ExprNode, Move, MoveNode, Owner, Place, Taker, Target, at_word,
};

#[tactic(auto, using(crate::proofs::Words::words))]
pub(crate) fn in_expr(owner: Owner, expr: &Expr, found: Option<CheckFault>) -> Option<CheckFault>
    ensures { result ≡ first_among found (expr_faults owner expr.now) }
{
    match &expr.node {
        ExprNode::Number(_) | ExprNode::Name(_) => found,
        ExprNode::Element(_, index) => in_expr(owner, index, found),
        ExprNode::Synched(at) => at_word(owner, *at, found),
        ExprNode::Binary(_, left, right) => {
            let found = in_expr(owner, left, found);
            in_expr(owner, right, found)
        }
        ExprNode::Unary(_, operand) => in_expr(owner, operand, found),
        ExprNode::Choose(test, first, second) => {
            let found = in_expr(owner, test, found);
            let found = in_expr(owner, first, found);
            in_expr(owner, second, found)
        }
    }
}

#[tactic(auto, using(crate::proofs::Words::words))]
pub(crate) fn in_exprs(
    owner: Owner,
    exprs: &[Expr],
    found: Option<CheckFault>,
) -> Option<CheckFault>
    ensures { result ≡ first_among found (exprs_faults owner exprs.now) }
{
    let mut found = found;
    for expr in exprs {
        found = in_expr(owner, expr, found);
    }
    found
}

#[tactic(auto, using(crate::proofs::Words::words))]
pub(crate) fn in_value(
    owner: Owner,
    value: &Option<Expr>,
    found: Option<CheckFault>,
) -> Option<CheckFault>
    ensures { result ≡ first_among found (value_faults owner value.now) }
{
    match value {
        None => found,
        Some(value) => in_expr(owner, value, found),
    }
}

#[tactic(auto, using(crate::proofs::Words::words))]
fn in_place(owner: Owner, place: &Place, found: Option<CheckFault>) -> Option<CheckFault>
    ensures { result ≡ first_among found (exprs_faults owner (place_exprs place.now)) }
{
    in_value(owner, &place.index, found)
}

#[tactic(auto, using(crate::proofs::Words::words))]
fn in_target(owner: Owner, target: &Option<Target>, found: Option<CheckFault>) -> Option<CheckFault>
    ensures { result ≡ first_among found (exprs_faults owner (target_exprs target.now)) }
{
    match target {
        None => found,
        Some(target) => in_place(owner, &target.place, found),
    }
}

#[tactic(auto, using(crate::proofs::Words::words))]
pub(crate) fn in_move(owner: Owner, what: &Move, found: Option<CheckFault>) -> Option<CheckFault>
    ensures { result ≡ first_among found (exprs_faults owner (move_exprs what.now)) }
{
    match &what.node {
        MoveNode::Assign(target, value) => {
            let found = in_place(owner, &target.place, found);
            in_expr(owner, value, found)
        }
        MoveNode::Adjust(place, _) => in_place(owner, place, found),
        MoveNode::Call(target, _, arguments) => {
            let found = in_target(owner, target, found);
            in_exprs(owner, arguments, found)
        }
    }
}

#[tactic(auto, using(crate::proofs::Words::words))]
pub(crate) fn in_moves(
    owner: Owner,
    what: &Option<Move>,
    found: Option<CheckFault>,
) -> Option<CheckFault>
    ensures { result ≡ first_among found (exprs_faults owner (moves_exprs what.now)) }
{
    match what {
        None => found,
        Some(what) => in_move(owner, what, found),
    }
}

#[tactic(auto, using(crate::proofs::Words::words))]
pub(crate) fn in_taker(owner: Owner, taker: &Taker, found: Option<CheckFault>) -> Option<CheckFault>
    ensures { result ≡ first_among found (exprs_faults owner (taker_exprs (taker_of taker.now))) }
{
    match taker {
        Taker::Nothing => found,
        Taker::Into(target) => in_place(owner, &target.place, found),
        Taker::Through(_, others) => in_exprs(owner, others, found),
    }
}
