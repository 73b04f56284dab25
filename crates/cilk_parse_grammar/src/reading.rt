//! How expressions are read: operands, operators and subscripts, within the limits of nesting.

ghost use Rattle.std.specs.Prelude.{◌≡◌, ◌<◌, ◌≤◌, MatchResult, length};
ghost use Rattle.cilk_parse_grammar.specs.ReadsAs.{ReadsAs};
ghost use Rattle.cilk_tree_syntax.specs.Tree as tree;
ghost use Rattle.cilk_parse_grammar.specs.Expressions.{operator_limit, parenthesis_limit};
ghost use Rattle.cilk_parse_grammar.specs.Operators.{operand};
ghost use Rattle.cilk_parse_grammar.specs.Reading.{choice_at, operand_at, named_at, subscript_at, open_at, sign_at, expr_of, whole_of};

use crate::cursor::Cursor;
use crate::fault::ReadError;
use crate::operator::{Infix, sign_of};
use cilk_tree_syntax::{BinOp, Expr, ExprNode, Keyword, Mark, TokenKind, UnOp, Word};
use std::alloc::Global;

// An operand binds more tightly than each operator.
const OPERAND: u32 = 11;

// How many operators and subscripts an expression may have.
const OPERATOR_LIMIT: u32 = 200;

// How many parentheses may be open at once in an expression.
const PARENTHESIS_LIMIT: u32 = 200;

fn joined(alloc: Global, operator: BinOp, left: Expr, right: Expr) -> Result<Expr, ReadError>
    ensures { MatchResult result (λ e. e ≡ tree.binary operator left right) (λ e. e ≡ ReadError.Memory) }
{
    let left = Box::new(alloc, left)?;
    let right = Box::new(alloc, right)?;
    Ok(Expr {
        node: ExprNode::Binary(operator, left, right),
    })
}

fn chosen(alloc: Global, test: Expr, first: Expr, second: Expr) -> Result<Expr, ReadError>
    ensures { MatchResult result (λ e. e ≡ tree.choose test first second) (λ e. e ≡ ReadError.Memory) }
{
    let test = Box::new(alloc, test)?;
    let first = Box::new(alloc, first)?;
    let second = Box::new(alloc, second)?;
    Ok(Expr {
        node: ExprNode::Choose(test, first, second),
    })
}

fn signed(alloc: Global, operator: UnOp, operand: Expr) -> Result<Expr, ReadError>
    ensures { MatchResult result (λ e. e ≡ tree.unary operator operand) (λ e. e ≡ ReadError.Memory) }
{
    let operand = Box::new(alloc, operand)?;
    Ok(Expr {
        node: ExprNode::Unary(operator, operand),
    })
}

fn element(alloc: Global, name: Word, index: Expr) -> Result<Expr, ReadError>
    ensures { MatchResult result (λ e. e ≡ tree.element name index) (λ e. e ≡ ReadError.Memory) }
{
    let index = Box::new(alloc, index)?;
    Ok(Expr {
        node: ExprNode::Element(name, index),
    })
}

#[cycle(expr)]
#[tactic(auto, unfolding(crate::specs::Reading::open_at))]
fn parenthesised(cursor: &mut Cursor, depth: u32) -> Result<Expr, ReadError>
    requires { 0 < length cursor.old.pieces }
    ensures { ReadsAs (λ e. ((e, cursor.new.operators), cursor.new.pieces)) result
        (open_at operator_limit depth cursor.old.operators cursor.old.pieces) }
{
    if depth == 0 {
        return Err(cursor.too_deep());
    }
    cursor.advance();
    let inner = expr(cursor, depth - 1, 0)?;
    cursor.mark(Mark::CloseParenthesis)?;
    Ok(inner)
}

#[cycle(expr)]
#[tactic(auto, unfolding(crate::specs::Reading::sign_at))]
fn prefixed(cursor: &mut Cursor, depth: u32, operator: UnOp) -> Result<Expr, ReadError>
    requires { 0 < length cursor.old.pieces }
    ensures { ReadsAs (λ e. ((e, cursor.new.operators), cursor.new.pieces)) result
        (sign_at operator_limit depth cursor.old.operators cursor.old.pieces operator) }
{
    if cursor.operators() >= OPERATOR_LIMIT {
        return Err(cursor.too_deep());
    }
    cursor.take_operator();
    let operand = expr(cursor, depth, OPERAND)?;
    signed(cursor.alloc(), operator, operand)
}

#[cycle(expr)]
#[tactic(auto, unfolding(crate::specs::Reading::subscript_at))]
fn subscripted(cursor: &mut Cursor, depth: u32, name: Word) -> Result<Expr, ReadError>
    requires { 0 < length cursor.old.pieces }
    ensures { ReadsAs (λ e. ((e, cursor.new.operators), cursor.new.pieces)) result
        (subscript_at operator_limit depth cursor.old.operators name cursor.old.pieces) }
{
    if cursor.operators() >= OPERATOR_LIMIT {
        return Err(cursor.too_deep());
    }
    cursor.take_operator();
    let index = expr(cursor, depth, 0)?;
    cursor.mark(Mark::CloseBracket)?;
    element(cursor.alloc(), name, index)
}

#[cycle(expr)]
#[tactic(auto, unfolding(crate::specs::Reading::named_at, crate::specs::Reading::subscript_at))]
fn named(cursor: &mut Cursor, depth: u32) -> Result<Expr, ReadError>
    requires { 0 < length cursor.old.pieces }
    ensures { ReadsAs (λ e. ((e, cursor.new.operators), cursor.new.pieces)) result
        (named_at operator_limit depth cursor.old.operators cursor.old.pieces) }
{
    let name = cursor.name()?;
    if cursor.is_mark(Mark::OpenBracket) {
        subscripted(cursor, depth, name)
    } else {
        Ok(Expr {
            node: ExprNode::Name(name),
        })
    }
}

#[cycle(expr)]
#[tactic(auto, unfolding(crate::specs::Reading::operand_at, crate::specs::Reading::open_at, crate::specs::Reading::sign_at, crate::specs::Reading::named_at))]
fn operand(cursor: &mut Cursor, depth: u32) -> Result<Expr, ReadError>
    ensures { ReadsAs (λ e. ((e, cursor.new.operators), cursor.new.pieces)) result
        (operand_at operator_limit depth cursor.old.operators cursor.old.pieces) }
{
    match cursor.kind() {
        Some(TokenKind::Number(value)) => {
            cursor.advance();
            Ok(Expr {
                node: ExprNode::Number(value),
            })
        }
        Some(TokenKind::Name) => named(cursor, depth),
        Some(TokenKind::Mark(mark)) => match sign_of(mark) {
            Some(operator) => prefixed(cursor, depth, operator),
            None if cursor.is_mark(Mark::OpenParenthesis) => parenthesised(cursor, depth),
            None => Err(cursor.unexpected()),
        },
        Some(TokenKind::Word(_)) if cursor.is_keyword(Keyword::Synched) => {
            let at = cursor.place();
            cursor.advance();
            Ok(Expr {
                node: ExprNode::Synched(at),
            })
        }
        _ => Err(cursor.unexpected()),
    }
}

// What stands behind a test and its `?`.
#[cycle(expr)]
#[tactic(auto, unfolding(crate::specs::Reading::choice_at))]
fn choice(cursor: &mut Cursor, depth: u32, test: Expr) -> Result<Expr, ReadError>
    ensures { ReadsAs (λ e. ((e, cursor.new.operators), cursor.new.pieces)) result
        (choice_at operator_limit depth cursor.old.operators test cursor.old.pieces) }
{
    let first = expr(cursor, depth, 0)?;
    cursor.mark(Mark::Colon)?;
    let second = expr(cursor, depth, 0)?;
    chosen(cursor.alloc(), test, first, second)
}

#[cycle(expr)]
fn expr(cursor: &mut Cursor, depth: u32, lowest: u32) -> Result<Expr, ReadError>
    requires { lowest ≤ operand }
    ensures { ReadsAs (λ e. ((e, cursor.new.operators), cursor.new.pieces)) result
        (expr_of operator_limit depth lowest cursor.old.operators cursor.old.pieces) }
{
    let mut left = operand(cursor, depth)?;
    'each: while let Some((level, next)) = cursor.infix() {
        if level < lowest {
            return Ok(left);
        }
        if cursor.operators() >= OPERATOR_LIMIT {
            return Err(cursor.too_deep());
        }
        cursor.take_operator();
        let Infix::Two(operator) = next else {
            return choice(cursor, depth, left);
        };
        let right = expr(cursor, depth, level + 1)?;
        left = joined(cursor.alloc(), operator, left, right)?;
    }
    Ok(left)
}

/// Reads a whole expression, up to the first token that is no part of it.
#[tactic(auto, unfolding(crate::specs::Reading::whole_of))]
pub fn expression(cursor: &mut Cursor) -> Result<Expr, ReadError>
    ensures { ReadsAs (λ e. (e, cursor.new.pieces)) result
        (whole_of operator_limit parenthesis_limit cursor.old.pieces) }
{
    cursor.start_expression();
    expr(cursor, PARENTHESIS_LIMIT, 0)
}
