//! The value of an expression over variables of which a value is known.

ghost use Rattle.std.specs.Prelude.{◌≡◌};
ghost use Rattle.cilk_frame.specs.labelled.Value.{value_of};
ghost use Rattle.cilk_eval.specs.Known.{is_area, is_known, is_slot, known, known_value, no_element};

use crate::arithmetic::{apply, unary};
use crate::evaluate::{literal, settled};
use cilk_frame::{Area, Code, CodeNode, Slot, Trap};

/// A variable that is no element, and its value at some time.
#[derive(Clone, Copy, PartialEq, Eq)]
pub struct Known {
    pub slot: Slot,
    pub value: i32,
}

/// The value of an expression, or the first trap from the left, where variables have the values that are known of them. One
/// of which none is known is 0, an array has no elements, and `SYNCHED` is 0.
#[cycle(eval_known)]
pub fn eval_known(values: &[Known], code: &Code) -> Result<i32, Trap>
    ensures { result ≡ value_of (known values.now) code.now }
{
    match &code.node {
        CodeNode::Number(number) => literal(*number),
        CodeNode::Variable(slot) => Ok(known_value(values, *slot)),
        CodeNode::Element(_, subscript) => no_element(eval_known(values, subscript)),
        CodeNode::Synched => Ok(0),
        CodeNode::Unary(op, operand) => {
            let operand = eval_known(values, operand)?;
            unary(*op, operand)
        }
        CodeNode::Binary(op, left, right) => {
            let left = eval_known(values, left)?;
            match settled(*op, left) {
                Some(value) => Ok(value),
                None => {
                    let right = eval_known(values, right)?;
                    apply(*op, left, right)
                }
            }
        }
        CodeNode::Choose(test, first, second) => {
            let test = eval_known(values, test)?;
            eval_known(values, if test != 0 { first } else { second })
        }
    }
}

// The element with this subscript of an array that has none.
fn no_element(subscript: Result<i32, Trap>) -> Result<i32, Trap>
    ensures { result ≡ no_element subscript }
{
    match subscript {
        Ok(_) => Err(Trap::Index),
        Err(trap) => Err(trap),
    }
}

fn known_value(values: &[Known], slot: Slot) -> i32
    ensures { result ≡ known_value values.now slot }
{
    for known in values {
        if is_slot(known.slot, slot) {
            return known.value;
        }
    }
    0
}

/// Whether that value is known of the variable.
pub(crate) fn is_known(known: Known, slot: Slot, value: i32) -> bool
    ensures { result ≡ is_known known (record { slot = slot; value = value }) }
{
    is_slot(known.slot, slot) && known.value == value
}

fn is_slot(one: Slot, other: Slot) -> bool
    ensures { result ≡ is_slot one other }
{
    is_area(one.area, other.area) && one.offset == other.offset && one.length == other.length
}

fn is_area(one: Area, other: Area) -> bool
    ensures { result ≡ is_area one other }
{
    match one {
        Area::Own => matches!(other, Area::Own),
        Area::Outer => matches!(other, Area::Outer),
        Area::Global => matches!(other, Area::Global),
    }
}
