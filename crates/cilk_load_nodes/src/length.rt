//! How long an expression is.

ghost use Rattle.std.specs.Prelude.{◌≡◌, ◌<◌, ◌+◌, Decides, IfNone, IfSome};
ghost use Rattle.cilk_load_nodes.specs.Size.{term_size};

use crate::code::{Code, CodeNode};

impl Code {
    /// Whether it has more operators than so many, subscripts among them. It looks at no more of them than that.
    pub fn has_more_operators(&self, most: u32) -> bool
        ensures { Decides result (most < term_size self.now) }
    {
        others(self, most).is_none()
    }
}

// How many operators are left of so many behind those of the expression, if it has no more.
#[cycle(others)]
fn others(code: &Code, most: u32) -> Option<u32>
    ensures some { IfSome result (λ left. left + term_size code.now ≡ most) }
    ensures none { IfNone result (most < term_size code.now) }
{
    match &code.node {
        CodeNode::Number(_) | CodeNode::Variable(_) | CodeNode::Synched => Some(most),
        CodeNode::Element(_, operand) | CodeNode::Unary(_, operand) => {
            others(operand, most.checked_sub(1)?)
        }
        CodeNode::Binary(_, left, right) => {
            let rest = others(left, most.checked_sub(1)?)?;
            others(right, rest)
        }
        CodeNode::Choose(test, first, second) => {
            let rest = others(test, most.checked_sub(1)?)?;
            let rest = others(first, rest)?;
            others(second, rest)
        }
    }
}
