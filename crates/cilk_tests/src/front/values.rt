//! The values of expressions, and their traps, over cells that are known by hand.

ghost use Rattle.std.specs.Prelude.{◌≡◌};
ghost use Rattle.cilk_eval.specs.nodes.View.{term_of};
ghost use Rattle.cilk_machine.specs.labelled.Term as term;

use crate::equal::equal;
use cilk_eval::{
    Area, Code, CodeNode, Slot, Slots, Trap, apply, eval, quotients_are_rounded, unary,
    value_is_of_what_is_read,
};
use cilk_tree_syntax::{BinOp, UnOp};
use std::alloc::Global;
use std::process::Abort;

#[test]
fn traps(rt: HostRuntime) {
    let least = i32::MIN;
    equal(&rt, apply(BinOp::Divide, least, -1), Err(Trap::Overflow));
    equal(&rt, apply(BinOp::Remainder, least, -1), Err(Trap::Overflow));
    equal(&rt, apply(BinOp::Remainder, 5, 0), Err(Trap::ZeroDivide));
    equal(&rt, apply(BinOp::ShiftLeft, 1, 31), Err(Trap::Overflow));
    equal(&rt, apply(BinOp::ShiftLeft, -1, 0), Err(Trap::Shift));
    equal(&rt, apply(BinOp::ShiftRight, 1, 32), Err(Trap::Shift));
    equal(&rt, apply(BinOp::Add, i32::MAX, 1), Err(Trap::Overflow));
    equal(&rt, unary(UnOp::Minus, least), Err(Trap::Overflow));
}

#[test]
fn values(rt: HostRuntime) {
    equal(&rt, apply(BinOp::Divide, -7, 2), Ok(-3));
    equal(&rt, apply(BinOp::Remainder, -7, 2), Ok(-1));
    equal(&rt, apply(BinOp::ShiftRight, -7, 1), Ok(-4));
    equal(&rt, apply(BinOp::ShiftLeft, 3, 29), Ok(1610612736));
    equal(&rt, apply(BinOp::Subtract, 2, 5), Ok(-3));
    equal(&rt, apply(BinOp::Multiply, 65536, -32768), Ok(i32::MIN));
    equal(&rt, apply(BinOp::BitAnd, -6, 13), Ok(8));
    equal(&rt, apply(BinOp::BitOr, -6, 13), Ok(-1));
    equal(&rt, apply(BinOp::BitXor, -6, 13), Ok(-9));
    equal(&rt, apply(BinOp::GreaterOrEqual, -1, 0), Ok(0));
    equal(&rt, apply(BinOp::And, -1, 0), Ok(0));
    equal(&rt, apply(BinOp::Or, -1, 0), Ok(1));
    equal(&rt, unary(UnOp::Complement, 5), Ok(-6));
    equal(&rt, unary(UnOp::Not, 5), Ok(0));
    value_is_of_what_is_read::<Slot, Slot>();
    quotients_are_rounded();
}

fn boxed(rt: &impl Abort, alloc: Global, node: CodeNode) -> Box<Code>
    ensures { result.value ≡ term_of node }
{
    Box::new(alloc, Code { node }).expect(rt, "memory")
}

fn number(rt: &impl Abort, alloc: Global, number: u32) -> Box<Code>
    ensures { result.value ≡ term.number number }
{
    boxed(rt, alloc, CodeNode::Number(number))
}

fn binary(rt: &impl Abort, alloc: Global, op: BinOp, left: Box<Code>, right: Box<Code>) -> Box<Code>
    ensures { result.value ≡ term.binary op left.value right.value }
{
    boxed(rt, alloc, CodeNode::Binary(op, left, right))
}

// `1 / 0`
fn trapped(rt: &impl Abort, alloc: Global) -> Box<Code>
    ensures { result.value ≡ term.binary BinOp.Divide (term.number 1) (term.number 0) }
{
    let one = number(rt, alloc, 1);
    let zero = number(rt, alloc, 0);
    binary(rt, alloc, BinOp::Divide, one, zero)
}

const ARRAY: Slot = Slot {
    area: Area::Outer,
    offset: 1,
    length: 3,
};

// `array[subscript]` of the array at `ARRAY`
fn element(rt: &impl Abort, alloc: Global, subscript: u32) -> Box<Code>
    ensures { result.value ≡ term.element ARRAY (term.number subscript) }
{
    let subscript = number(rt, alloc, subscript);
    boxed(rt, alloc, CodeNode::Element(ARRAY, subscript))
}

const CELLS: Slots = Slots {
    own: &[4],
    outer: &[5, 6, 7, 8],
    globals: &[9],
    synched: true,
};

#[test]
fn the_first_trap_is_that_of_the_left(rt: HostRuntime) {
    let left = trapped(&rt, rt.alloc());
    let right = element(&rt, rt.alloc(), 9);
    let code = binary(&rt, rt.alloc(), BinOp::Add, left, right);
    equal(&rt, eval(&CELLS, &code), Err(Trap::ZeroDivide));
    let left = element(&rt, rt.alloc(), 9);
    let right = trapped(&rt, rt.alloc());
    let code = binary(&rt, rt.alloc(), BinOp::Add, left, right);
    equal(&rt, eval(&CELLS, &code), Err(Trap::Index));
    let copy = code.copy(rt.alloc()).expect(&rt, "memory");
    equal(&rt, eval(&CELLS, &copy), Err(Trap::Index));
}
