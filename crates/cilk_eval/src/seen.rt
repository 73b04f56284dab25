//! What slots hold of the variables of an expression.

ghost use Rattle.std.specs.Prelude.{◌≡◌, ◌++◌, [], Decides, IfOk, OnOk, option_map};
ghost use Rattle.cilk_eval.specs.Known.{behind_known, known_of};
ghost use Rattle.cilk_frame.specs.nodes.Areas.{SlotsLieWithin, cells_of, sizes_of};

use crate::evaluate::variable;
use crate::known::{Known, is_known};
use cilk_frame::{Code, CodeNode, Memory, Slots};
use std::alloc::Global;

/// What the slots hold of the variables of an expression, from the left, evaluated or not.
pub fn known_of(alloc: Global, slots: &Slots, code: &Code) -> Result<Vec<Known>, Memory>
    requires { SlotsLieWithin (sizes_of (cells_of slots.now)) code.now }
    ensures { IfOk result (λ values. values.items ≡ known_of (cells_of slots.now) code.now) }
{
    let mut values = Vec::new(alloc);
    push_known(&mut values, slots, code)?;
    Ok(values)
}

#[cycle(push_known)]
fn push_known(values: &mut Vec<Known>, slots: &Slots, code: &Code) -> Result<(), Memory>
    requires { SlotsLieWithin (sizes_of (cells_of slots.now)) code.now }
    ensures { OnOk result (values.new.items ≡ values.old.items ++ known_of (cells_of slots.now) code.now) }
{
    match &code.node {
        CodeNode::Number(_) | CodeNode::Synched => Ok(()),
        CodeNode::Variable(slot) => {
            values.push(Known {
                slot: *slot,
                value: variable(slots, *slot),
            })?;
            Ok(())
        }
        CodeNode::Element(_, operand) | CodeNode::Unary(_, operand) => {
            push_known(values, slots, operand)
        }
        CodeNode::Binary(_, left, right) => {
            push_known(values, slots, left)?;
            push_known(values, slots, right)
        }
        CodeNode::Choose(test, first, second) => {
            push_known(values, slots, test)?;
            push_known(values, slots, first)?;
            push_known(values, slots, second)
        }
    }
}

/// Whether that is what the slots still hold of them.
pub fn is_known_of(slots: &Slots, code: &Code, values: &[Known]) -> bool
    requires { SlotsLieWithin (sizes_of (cells_of slots.now)) code.now }
    ensures { Decides result (values.now ≡ known_of (cells_of slots.now) code.now) }
{
    match behind_known(slots, code, values) {
        Some(others) => others.is_empty(),
        None => false,
    }
}

// What stands behind what the slots hold of the variables, if that stands in front.
#[cycle(behind_known)]
#[tactic(auto, using(crate::proofs::KnownLaws::behind_two))]
fn behind_known<'a>(slots: &Slots, code: &Code, values: &'a [Known]) -> Option<&'a [Known]>
    requires { SlotsLieWithin (sizes_of (cells_of slots.now)) code.now }
    ensures { option_map (λ others. others.now) result ≡ behind_known (known_of (cells_of slots.now) code.now) values.now }
{
    match &code.node {
        CodeNode::Number(_) | CodeNode::Synched => Some(values),
        CodeNode::Variable(slot) => match values.split_first() {
            Some((first, others)) if is_known(*first, *slot, variable(slots, *slot)) => {
                Some(others)
            }
            _ => None,
        },
        CodeNode::Element(_, operand) | CodeNode::Unary(_, operand) => {
            behind_known(slots, operand, values)
        }
        CodeNode::Binary(_, left, right) => {
            let others = behind_known(slots, left, values)?;
            behind_known(slots, right, others)
        }
        CodeNode::Choose(test, first, second) => {
            let others = behind_known(slots, test, values)?;
            let others = behind_known(slots, first, others)?;
            behind_known(slots, second, others)
        }
    }
}
