//! The canonical text of expressions.

ghost use Rattle.std.specs.Prelude.{◌≡◌};
ghost use Rattle.cilk_tree_syntax.specs.Tree.{binary, choose, element, unary};
ghost use Rattle.cilk_tree_syntax.specs.Appends.{Appends};
ghost use Rattle.cilk_tree_syntax.specs.ExprText.{expr_text, operand_text, stands_alone};
ghost use Rattle.cilk_tree_syntax.specs.MoveText.{exprs_text, next_exprs_text};

use crate::put::{put, put_number};
use cilk_tree_syntax::{BinOp, Expr, ExprNode, Memory, UnOp, Word};

#[cycle(put_expr)]
pub(crate) fn put_expr(out: &mut String, expr: &Expr) -> Result<(), Memory>
    ensures { Appends result out.old out.new (expr_text expr.now) }
{
    match &expr.node {
        ExprNode::Number(n) => put_number(out, *n),
        ExprNode::Name(name) => put(out, name.as_str()),
        ExprNode::Element(name, index) => put_element(out, name, index),
        ExprNode::Synched(_) => put(out, "SYNCHED"),
        ExprNode::Binary(op, left, right) => put_binary(out, *op, left, right),
        ExprNode::Unary(op, operand) => put_unary(out, *op, operand),
        ExprNode::Choose(test, first, second) => put_choice(out, test, first, second),
    }
}

#[cycle(put_expr)]
pub(crate) fn put_element(out: &mut String, name: &Word, index: &Expr) -> Result<(), Memory>
    ensures { Appends result out.old out.new (expr_text (element name.now index.now)) }
{
    put(out, name.as_str())?;
    put(out, "[")?;
    put_expr(out, index)?;
    put(out, "]")
}

#[cycle(put_expr)]
fn put_binary(out: &mut String, op: BinOp, left: &Expr, right: &Expr) -> Result<(), Memory>
    ensures { Appends result out.old out.new (expr_text (binary op left.now right.now)) }
{
    put_operand(out, left)?;
    put(out, " ")?;
    put(out, op.mark())?;
    put(out, " ")?;
    put_operand(out, right)
}

#[cycle(put_expr)]
fn put_unary(out: &mut String, op: UnOp, operand: &Expr) -> Result<(), Memory>
    ensures { Appends result out.old out.new (expr_text (unary op operand.now)) }
{
    put(out, op.mark())?;
    put_operand(out, operand)
}

#[cycle(put_expr)]
fn put_choice(out: &mut String, test: &Expr, first: &Expr, second: &Expr) -> Result<(), Memory>
    ensures { Appends result out.old out.new (expr_text (choose test.now first.now second.now)) }
{
    put_operand(out, test)?;
    put(out, " ? ")?;
    put_operand(out, first)?;
    put(out, " : ")?;
    put_operand(out, second)
}

#[cycle(put_expr)]
fn put_operand(out: &mut String, expr: &Expr) -> Result<(), Memory>
    ensures { Appends result out.old out.new (operand_text expr.now) }
{
    if is_alone(expr) {
        put_expr(out, expr)
    } else {
        put(out, "(")?;
        put_expr(out, expr)?;
        put(out, ")")
    }
}

// Whether an expression stands as an operand with no parentheses.
fn is_alone(expr: &Expr) -> bool
    ensures { result ≡ stands_alone expr.now }
{
    match &expr.node {
        ExprNode::Number(_) | ExprNode::Name(_) | ExprNode::Element(..) | ExprNode::Synched(_) =>
            true,
        ExprNode::Binary(..) | ExprNode::Unary(..) | ExprNode::Choose(..) => false,
    }
}

// The expressions, a comma between two.
pub(crate) fn put_exprs(out: &mut String, exprs: &[Expr]) -> Result<(), Memory>
    ensures { Appends result out.old out.new (exprs_text exprs.now) }
{
    match exprs {
        [] => Ok(()),
        [first, others @ ..] => {
            put_expr(out, first)?;
            put_next_exprs(out, others)
        }
    }
}

// The expressions, a comma before each.
pub(crate) fn put_next_exprs(out: &mut String, exprs: &[Expr]) -> Result<(), Memory>
    ensures { Appends result out.old out.new (next_exprs_text exprs.now) }
{
    for expr in exprs {
        put(out, ", ")?;
        put_expr(out, expr)?;
    }
    Ok(())
}
