//! The operators on the integers of the language.

ghost use Rattle.std.specs.Prelude.{◌≡◌};
ghost use Rattle.cilk_frame.specs.labelled.Arithmetic.{binary_result, unary_result, quotient, remainder, shifted_left, shifted_right};

use cilk_frame::{BinOp, Trap, UnOp};

/// The value of two operands under an operator, or the trap (C 1990, 6.3.5 to 6.3.14). Both
/// operands are values already; `&&` and `||` give 1 or 0 by whether they are other than 0.
#[inline(always)]
pub fn apply(op: BinOp, left: i32, right: i32) -> Result<i32, Trap>
    ensures { result ≡ binary_result op left right }
{
    match op {
        BinOp::Multiply => left.checked_mul(right).ok_or(Trap::Overflow),
        BinOp::Divide => divide(left, right),
        BinOp::Remainder => remainder_of(left, right),
        BinOp::Add => left.checked_add(right).ok_or(Trap::Overflow),
        BinOp::Subtract => left.checked_sub(right).ok_or(Trap::Overflow),
        BinOp::ShiftLeft => shift_left(left, right),
        BinOp::ShiftRight => shift_right(left, right),
        BinOp::Less => Ok(i32::from(left < right)),
        BinOp::LessOrEqual => Ok(i32::from(left <= right)),
        BinOp::Greater => Ok(i32::from(left > right)),
        BinOp::GreaterOrEqual => Ok(i32::from(left >= right)),
        BinOp::Equal => Ok(i32::from(left == right)),
        BinOp::NotEqual => Ok(i32::from(left != right)),
        BinOp::BitAnd => Ok(left & right),
        BinOp::BitXor => Ok(left ^ right),
        BinOp::BitOr => Ok(left | right),
        BinOp::And => Ok(i32::from(left != 0 && right != 0)),
        BinOp::Or => Ok(i32::from(left != 0 || right != 0)),
    }
}

/// The value of an operand under an operator, or the trap (C 1990, 6.3.3.3).
pub fn unary(op: UnOp, operand: i32) -> Result<i32, Trap>
    ensures { result ≡ unary_result op operand }
{
    match op {
        UnOp::Minus => operand.checked_neg().ok_or(Trap::Overflow),
        UnOp::Plus => Ok(operand),
        UnOp::Not => Ok(i32::from(operand == 0)),
        UnOp::Complement => Ok(!operand),
    }
}

fn divide(left: i32, right: i32) -> Result<i32, Trap>
    ensures { result ≡ quotient left right }
{
    if right == 0 {
        return Err(Trap::ZeroDivide);
    }
    left.checked_div(right).ok_or(Trap::Overflow)
}

fn remainder_of(left: i32, right: i32) -> Result<i32, Trap>
    ensures { result ≡ remainder left right }
{
    if right == 0 {
        return Err(Trap::ZeroDivide);
    }
    left.checked_rem(right).ok_or(Trap::Overflow)
}

fn shift_left(left: i32, count: i32) -> Result<i32, Trap>
    ensures { result ≡ shifted_left left count }
{
    if count < 0 || count > 31 || left < 0 {
        return Err(Trap::Shift);
    }
    let shifted = i64::from(left) << count;
    i32::try_from(shifted).map_err(|_| Trap::Overflow)
}

fn shift_right(left: i32, count: i32) -> Result<i32, Trap>
    ensures { result ≡ shifted_right left count }
{
    if count < 0 || count > 31 {
        return Err(Trap::Shift);
    }
    Ok(left >> count)
}
