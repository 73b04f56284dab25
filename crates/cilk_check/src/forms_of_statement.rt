//! The first fault in the form of a statement itself, without the blocks inside it.

ghost use Rattle.std.specs.Prelude.{◌≡◌, ◌∷◌, ◌++◌, not, length};
ghost use Rattle.cilk_check_scopes.specs.syntax.MoveView.{taker_of};
ghost use Rattle.cilk_check_scopes.specs.declared.fault.CheckFault.TheVariants.{Format, ReturnForm};
ghost use Rattle.cilk_check_scopes.specs.First.{first_among, fault_if};
ghost use Rattle.cilk_check_scopes.specs.Parts.{moves_exprs, taker_exprs};
ghost use Rattle.cilk_check_scopes.specs.Format.{numbers_in};
ghost use Rattle.cilk_check_scopes.specs.Forms.{has_form, returned_by};
ghost use Rattle.cilk_check.specs.FormFinds.{is_count, is_inlet, word_faults, exprs_faults, value_faults};

use crate::children::{in_expr, in_exprs, in_moves, in_taker, in_value};
use crate::format::numbers_in;
use cilk_check_scopes::{
    CheckFault, Expr, Literal, Move, Owner, ReturnType, Taker, at_word, first_if,
};

pub(crate) fn is_inlet(owner: Owner) -> bool
    ensures { result ≡ is_inlet owner }
{
    match owner {
        Owner::Inlet => true,
        Owner::Function(_) | Owner::Procedure(_) => false,
    }
}

fn returned_by(owner: Owner) -> ReturnType
    ensures { result ≡ returned_by owner }
{
    match owner {
        Owner::Function(returns) | Owner::Procedure(returns) => returns,
        Owner::Inlet => ReturnType::Void,
    }
}

fn has_form(returns: ReturnType, value: &Option<Expr>) -> bool
    ensures { result ≡ has_form returns value.now }
{
    match returns {
        ReturnType::Int => value.is_some(),
        ReturnType::Void => value.is_none(),
    }
}

fn is_count(arguments: usize, numbers: Option<usize>) -> bool
    ensures { result ≡ is_count arguments numbers }
{
    match numbers {
        None => false,
        Some(numbers) => numbers == arguments,
    }
}

#[tactic(auto, using(crate::proofs::Words::words))]
pub(crate) fn at_spawn(
    owner: Owner,
    at: u32,
    taker: &Taker,
    arguments: &[Expr],
    found: Option<CheckFault>,
) -> Option<CheckFault>
    ensures { result ≡ first_among found (word_faults owner at ++ exprs_faults owner (taker_exprs (taker_of taker.now) ++ arguments.now)) }
{
    let found = at_word(owner, at, found);
    let found = in_taker(owner, taker, found);
    in_exprs(owner, arguments, found)
}

#[tactic(auto, using(crate::proofs::Words::words))]
pub(crate) fn at_print(
    owner: Owner,
    format: &Literal,
    arguments: &[Expr],
    found: Option<CheckFault>,
) -> Option<CheckFault>
    ensures { result ≡ first_among found (fault_if (not (is_count (length arguments.now) (numbers_in format.now.bytes))) (Format format.now.place)
        ++ exprs_faults owner arguments.now) }
{
    let counted = is_count(arguments.len(), numbers_in(format.as_str()));
    let found = first_if(found, !counted, CheckFault::Format(format.at()));
    in_exprs(owner, arguments, found)
}

#[tactic(auto, using(crate::proofs::Words::words))]
pub(crate) fn at_return(
    owner: Owner,
    at: u32,
    value: &Option<Expr>,
    found: Option<CheckFault>,
) -> Option<CheckFault>
    ensures { result ≡ first_among found (fault_if (not (has_form (returned_by owner) value.now)) (ReturnForm at) ++ value_faults owner value.now) }
{
    let formed = has_form(returned_by(owner), value);
    let found = first_if(found, !formed, CheckFault::ReturnForm(at));
    in_value(owner, value, found)
}

/// What stands in the parentheses of a `for`.
#[tactic(auto, using(crate::proofs::Words::words))]
pub(crate) fn at_header(
    owner: Owner,
    first: &Option<Move>,
    test: &Expr,
    advance: &Option<Move>,
    found: Option<CheckFault>,
) -> Option<CheckFault>
    ensures { result ≡ first_among found (exprs_faults owner (moves_exprs first.now ++ test.now ∷ moves_exprs advance.now)) }
{
    let found = in_moves(owner, first, found);
    let found = in_expr(owner, test, found);
    in_moves(owner, advance, found)
}
