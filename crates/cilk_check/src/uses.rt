//! The first fault among the uses of names in expressions. Each function takes the first fault that was found so far,
//! and answers the first of it and of those in its own part.

ghost use Rattle.std.specs.Prelude.{◌≡◌};
ghost use Rattle.cilk_check_scopes.specs.First.{first_among};
ghost use Rattle.cilk_check.specs.NameFinds.{name_faults, expr_faults, exprs_faults, value_faults};

use crate::meant::at_meant;
use crate::reserved::is_reserved;
use crate::table::SymbolTable;
use cilk_check_scopes::{CheckFault, Expr, ExprNode, Role, Word, first};

/// A use of a name.
#[tactic(auto, using(crate::proofs::UseFaults::uses))]
pub(crate) fn at_name(
    names: &SymbolTable,
    name: &Word,
    role: Role,
    found: Option<CheckFault>,
) -> Option<CheckFault>
    ensures { result ≡ first_among found (name_faults names.now name.now role) }
{
    if is_reserved(name.as_str()) {
        return first(found, CheckFault::Reserved(name.at()));
    }
    match names.meaning(name.as_str()) {
        None => first(found, CheckFault::Unknown(name.at())),
        Some(kind) => at_meant(name, role, kind, found),
    }
}

#[tactic(auto, using(crate::proofs::UseFaults::uses), unfolding(crate::specs::NameFinds::use_faults))]
pub(crate) fn in_expr(
    names: &SymbolTable,
    expr: &Expr,
    found: Option<CheckFault>,
) -> Option<CheckFault>
    ensures { result ≡ first_among found (expr_faults names.now expr.now) }
{
    match &expr.node {
        ExprNode::Number(_) | ExprNode::Synched(_) => found,
        ExprNode::Name(name) => at_name(names, name, Role::Variable, found),
        ExprNode::Element(name, index) => {
            let found = at_name(names, name, Role::Array, found);
            in_expr(names, index, found)
        }
        ExprNode::Binary(_, left, right) => {
            let found = in_expr(names, left, found);
            in_expr(names, right, found)
        }
        ExprNode::Unary(_, operand) => in_expr(names, operand, found),
        ExprNode::Choose(test, first, second) => {
            let found = in_expr(names, test, found);
            let found = in_expr(names, first, found);
            in_expr(names, second, found)
        }
    }
}

#[tactic(auto, using(crate::proofs::UseFaults::uses))]
pub(crate) fn in_exprs(
    names: &SymbolTable,
    exprs: &[Expr],
    found: Option<CheckFault>,
) -> Option<CheckFault>
    ensures { result ≡ first_among found (exprs_faults names.now exprs.now) }
{
    let mut found = found;
    for expr in exprs {
        found = in_expr(names, expr, found);
    }
    found
}

#[tactic(auto, using(crate::proofs::UseFaults::uses))]
pub(crate) fn in_value(
    names: &SymbolTable,
    value: &Option<Expr>,
    found: Option<CheckFault>,
) -> Option<CheckFault>
    ensures { result ≡ first_among found (value_faults names.now value.now) }
{
    match value {
        None => found,
        Some(value) => in_expr(names, value, found),
    }
}
