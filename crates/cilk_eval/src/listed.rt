//! An expression whose variables are listed, so that what they hold is soon taken and soon compared.

ghost use Rattle.std.specs.Prelude.{◌≡◌, ◌++◌, Decides, IfOk, OnOk, map, option_map};
ghost use Rattle.cilk_frame.specs.labelled.Value.{value_of};
ghost use Rattle.cilk_eval.specs.Known.{behind_known, known, known_in, known_of, variables_of};
ghost use Rattle.cilk_frame.specs.nodes.Areas.{cells_of, slot_cell};

use crate::evaluate::cells_in;
use crate::known::{Known, eval_known, is_known};
use cilk_frame::{Code, CodeNode, Memory, Slot, Slots, Trap};
use std::alloc::Global;
use std::marker::Model;

/// An expression with a list of its variables, from the left, evaluated or not, each as often as it stands there.
#[derive(Drop)]
pub struct Listed {
    code: Code,
    variables: Vec<Slot>,
}

impl Model for Listed {
    ghost use Rattle.std.specs.Prelude.{◌≡◌};
    ghost use Rattle.cilk_frame.specs.labelled.Term.{Term};
    ghost use Rattle.cilk_frame.specs.nodes.Coding.{coded_Term};
    ghost use Rattle.cilk_eval.specs.Known.{variables_of};
    ghost use Rattle.cilk_frame.specs.nodes.declared.slot.Slot.{Slot};

    ghost Value = { Term Slot };

    ghost coded = { coded_Term };

    ghost view = { λ l. l.code };

    ghost invariant = { λ l. l.variables.items ≡ variables_of l.code };
}

impl Listed {
    /// A copy of an expression, with the list.
    pub fn new(alloc: Global, code: &Code) -> Result<Listed, Memory>
        ensures { IfOk result (λ listed. listed ≡ code.now) }
    {
        let mut variables = Vec::new(alloc);
        push_variables(&mut variables, code)?;
        let code = code.copy(alloc)?;
        Ok(Listed { code, variables })
    }

    /// The value of the expression, or the first trap from the left, where the variables have the values that are known of them.
    pub fn value(&self, values: &[Known]) -> Result<i32, Trap>
        ensures { result ≡ value_of (known values.now) self.now }
    {
        eval_known(values, &self.code)
    }

    /// Takes what the slots hold of the variables into a list, whose memory is used again. A slot that lies in no area holds 0.
    pub fn hold(&self, slots: &Slots, values: &mut Vec<Known>) -> Result<(), Memory>
        ensures { OnOk result (values.new.items ≡ known_of (cells_of slots.now) self.now) }
    {
        values.clear();
        push_held(values, slots, self.variables.as_slice())
    }

    /// Whether that is what the slots still hold of them.
    pub fn still_holds(&self, slots: &Slots, values: &[Known]) -> bool
        ensures { Decides result (values.now ≡ known_of (cells_of slots.now) self.now) }
    {
        match behind_listed(slots, self.variables.as_slice(), values) {
            Some(others) => others.is_empty(),
            None => false,
        }
    }
}

#[cycle(push_variables)]
fn push_variables(variables: &mut Vec<Slot>, code: &Code) -> Result<(), Memory>
    ensures { OnOk result (variables.new.items ≡ variables.old.items ++ variables_of code.now) }
{
    match &code.node {
        CodeNode::Number(_) | CodeNode::Synched => Ok(()),
        CodeNode::Variable(slot) => {
            variables.push(*slot)?;
            Ok(())
        }
        CodeNode::Element(_, operand) | CodeNode::Unary(_, operand) => {
            push_variables(variables, operand)
        }
        CodeNode::Binary(_, left, right) => {
            push_variables(variables, left)?;
            push_variables(variables, right)
        }
        CodeNode::Choose(test, first, second) => {
            push_variables(variables, test)?;
            push_variables(variables, first)?;
            push_variables(variables, second)
        }
    }
}

fn push_held(values: &mut Vec<Known>, slots: &Slots, variables: &[Slot]) -> Result<(), Memory>
    ensures { OnOk result (values.new.items ≡ values.old.items ++ map (known_in (cells_of slots.now)) variables.now) }
{
    for slot in variables {
        values.push(Known {
            slot: *slot,
            value: held(slots, *slot),
        })?;
    }
    Ok(())
}

// What stands behind what the slots hold of the variables, if that stands in front.
fn behind_listed<'a>(slots: &Slots, variables: &[Slot], values: &'a [Known]) -> Option<&'a [Known]>
    ensures { option_map (λ others. others.now) result ≡ behind_known (map (known_in (cells_of slots.now)) variables.now) values.now }
{
    let mut others = values;
    for slot in variables {
        let Some((first, rest)) = others.split_first() else {
            return None;
        };
        if !is_known(*first, *slot, held(slots, *slot)) {
            return None;
        }
        others = rest;
    }
    Some(others)
}

fn held(slots: &Slots, slot: Slot) -> i32
    ensures { result ≡ slot_cell (cells_of slots.now) slot 0 }
{
    match cells_in(slots, slot.area).get(slot.offset as usize) {
        None => 0,
        Some(cell) => *cell,
    }
}
