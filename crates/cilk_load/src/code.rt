//! Expressions over slots.

ghost use Rattle.std.specs.Prelude.{◌≡◌, IfOk, option_map};
ghost use Rattle.cilk_load.specs.Acts.{code_in, codes_in};

use crate::symbol_table::SymbolTable;
use cilk_load_nodes::{Code, CodeNode, Codes};
use cilk_tree_syntax::{Expr, ExprNode, Memory};
use std::alloc::Global;

/// An expression over the slots of these names.
#[cycle(code_in)]
pub fn code_in(alloc: Global, names: &SymbolTable, expr: &Expr) -> Result<Code, Memory>
    ensures { IfOk result (λ code. code ≡ code_in names.now expr.now) }
{
    let node = match &expr.node {
        ExprNode::Number(number) => CodeNode::Number(*number),
        ExprNode::Name(name) => CodeNode::Variable(names.binding(name.as_str()).slot),
        ExprNode::Element(name, index) => CodeNode::Element(
            names.binding(name.as_str()).slot,
            boxed_code_in(alloc, names, index)?,
        ),
        ExprNode::Synched(_) => CodeNode::Synched,
        ExprNode::Binary(op, left, right) => CodeNode::Binary(
            *op,
            boxed_code_in(alloc, names, left)?,
            boxed_code_in(alloc, names, right)?,
        ),
        ExprNode::Unary(op, operand) => {
            CodeNode::Unary(*op, boxed_code_in(alloc, names, operand)?)
        }
        ExprNode::Choose(test, first, second) => CodeNode::Choose(
            boxed_code_in(alloc, names, test)?,
            boxed_code_in(alloc, names, first)?,
            boxed_code_in(alloc, names, second)?,
        ),
    };
    Ok(Code { node })
}

#[cycle(code_in)]
fn boxed_code_in(alloc: Global, names: &SymbolTable, expr: &Expr) -> Result<Box<Code>, Memory>
    ensures { IfOk result (λ code. code.value ≡ code_in names.now expr.now) }
{
    let code = code_in(alloc, names, expr)?;
    Ok(Box::new(alloc, code)?)
}

/// Each of these expressions, in their order.
pub(crate) fn codes_in(alloc: Global, names: &SymbolTable, exprs: &[Expr]) -> Result<Codes, Memory>
    ensures { IfOk result (λ codes. codes ≡ codes_in names.now exprs.now) }
{
    let mut codes = Vec::new(alloc);
    for expr in exprs {
        codes.push(code_in(alloc, names, expr)?)?;
    }
    Ok(Codes::new(codes))
}

/// The expression, if there is one.
pub(crate) fn option_code_in(
    alloc: Global,
    names: &SymbolTable,
    expr: &Option<Expr>,
) -> Result<Option<Code>, Memory>
    ensures { IfOk result (λ code. code ≡ option_map (code_in names.now) expr.now) }
{
    match expr {
        None => Ok(None),
        Some(expr) => Ok(Some(code_in(alloc, names, expr)?)),
    }
}
