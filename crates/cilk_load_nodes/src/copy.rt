//! Copies of expressions, which are equal but for where they lie in memory.

ghost use Rattle.std.specs.Prelude.{◌≡◌, IfOk};

use crate::code::{Code, CodeNode};
use cilk_model::Memory;
use std::alloc::Global;

impl Code {
    /// An equal expression in memory of its own.
    #[cycle(copy_code)]
    pub fn copy(&self, alloc: Global) -> Result<Code, Memory>
        ensures { IfOk result (λ code. code ≡ self.now) }
    {
        let node = match &self.node {
            CodeNode::Number(number) => CodeNode::Number(*number),
            CodeNode::Variable(slot) => CodeNode::Variable(*slot),
            CodeNode::Element(slot, subscript) => {
                CodeNode::Element(*slot, boxed_copy(alloc, subscript)?)
            }
            CodeNode::Synched => CodeNode::Synched,
            CodeNode::Unary(op, operand) => CodeNode::Unary(*op, boxed_copy(alloc, operand)?),
            CodeNode::Binary(op, left, right) => {
                CodeNode::Binary(*op, boxed_copy(alloc, left)?, boxed_copy(alloc, right)?)
            }
            CodeNode::Choose(test, first, second) => CodeNode::Choose(
                boxed_copy(alloc, test)?,
                boxed_copy(alloc, first)?,
                boxed_copy(alloc, second)?,
            ),
        };
        Ok(Code { node })
    }
}

#[cycle(copy_code)]
fn boxed_copy(alloc: Global, code: &Code) -> Result<Box<Code>, Memory>
    ensures { IfOk result (λ copy. copy.value ≡ code.now) }
{
    let copy = code.copy(alloc)?;
    Ok(Box::new(alloc, copy)?)
}
