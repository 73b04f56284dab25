//! The value of an expression over slots.

ghost use Rattle.std.specs.Prelude.{◌≡◌, pos};
ghost use Rattle.cilk_frame.specs.labelled.Arithmetic.{exact};
ghost use Rattle.cilk_frame.specs.labelled.Value.{value_of, settled_by_left, element_at};
ghost use Rattle.cilk_frame.specs.nodes.Areas.{environment, cells_of, sizes_of, area_cells, LiesWithin, SlotsLieWithin};

use crate::arithmetic::{apply, unary};
use cilk_frame::{Area, BinOp, Code, CodeNode, Slot, Slots, Trap};

/// The value of an expression, or the first trap from the left (C 1990, 6.3). `&&`, `||` and `?:`
/// evaluate only the operands that they need. Each slot in the expression lies in its area, which
/// is the caller's to know; subscripts are tested here.
#[cycle(eval)]
#[inline(always)]
pub fn eval(slots: &Slots, code: &Code) -> Result<i32, Trap>
    requires { SlotsLieWithin (sizes_of (cells_of slots.now)) code.now }
    ensures { result ≡ value_of (environment (cells_of slots.now)) code.now }
{
    match &code.node {
        CodeNode::Number(number) => literal(*number),
        CodeNode::Variable(slot) => Ok(variable(slots, *slot)),
        _ => eval_apart(slots, code),
    }
}

// The same, by a call: most operands are numbers and variables, whose values are found in place. It has slots of its own,
// so that those of the caller need not stand in memory.
#[cycle(eval)]
#[inline(always)]
fn eval_apart(slots: &Slots, code: &Code) -> Result<i32, Trap>
    requires { SlotsLieWithin (sizes_of (cells_of slots.now)) code.now }
    ensures { result ≡ value_of (environment (cells_of slots.now)) code.now }
{
    eval_whole(*slots, code)
}

#[cycle(eval)]
fn eval_whole(slots: Slots, code: &Code) -> Result<i32, Trap>
    requires { SlotsLieWithin (sizes_of (cells_of slots)) code.now }
    ensures { result ≡ value_of (environment (cells_of slots.entry)) code.now }
{
    match &code.node {
        CodeNode::Number(number) => literal(*number),
        CodeNode::Variable(slot) => Ok(variable(&slots, *slot)),
        CodeNode::Element(slot, subscript) => {
            let subscript = eval(&slots, subscript)?;
            element(&slots, *slot, subscript)
        }
        CodeNode::Synched => Ok(i32::from(slots.synched)),
        CodeNode::Unary(op, operand) => {
            let operand = eval(&slots, operand)?;
            unary(*op, operand)
        }
        CodeNode::Binary(op, left, right) => {
            let left = eval(&slots, left)?;
            match settled(*op, left) {
                Some(value) => Ok(value),
                None => {
                    let right = eval(&slots, right)?;
                    apply(*op, left, right)
                }
            }
        }
        CodeNode::Choose(test, first, second) => {
            let test = eval(&slots, test)?;
            eval(&slots, if test != 0 { first } else { second })
        }
    }
}

pub(crate) fn literal(number: u32) -> Result<i32, Trap>
    ensures { result ≡ exact (pos number) }
{
    i32::try_from(number).map_err(|_| Trap::Overflow)
}

// The value that `&&` or `||` has by its left operand alone.
pub(crate) fn settled(op: BinOp, left: i32) -> Option<i32>
    ensures { result ≡ settled_by_left op left }
{
    match op {
        BinOp::And if left == 0 => Some(0),
        BinOp::Or if left != 0 => Some(1),
        _ => None,
    }
}

pub(crate) fn variable(slots: &Slots, slot: Slot) -> i32
    requires { LiesWithin (sizes_of (cells_of slots.now)) slot }
    ensures { result ≡ (environment (cells_of slots.now)).value slot }
{
    cells_in(slots, slot.area)[slot.offset as usize]
}

fn element(slots: &Slots, slot: Slot, subscript: i32) -> Result<i32, Trap>
    requires { LiesWithin (sizes_of (cells_of slots.now)) slot }
    ensures { result ≡ element_at (environment (cells_of slots.now)) slot subscript }
{
    let index = u32::try_from(subscript).map_err(|_| Trap::Index)?;
    if index >= slot.length {
        return Err(Trap::Index);
    }
    let cells = cells_in(slots, slot.area);
    Ok(cells[slot.offset as usize + index as usize])
}

pub(crate) fn cells_in<'a>(slots: &Slots<'a>, area: Area) -> &'a [i32]
    ensures { result.now ≡ area_cells (cells_of slots.now) area }
{
    match area {
        Area::Own => slots.own,
        Area::Outer => slots.outer,
        Area::Global => slots.globals,
    }
}
