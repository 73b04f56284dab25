//! Whether an expression reads variables alone.

ghost use Rattle.std.specs.Prelude.{◌≡◌};
ghost use Rattle.cilk_load_nodes.specs.Reads.{is_plain};

use crate::code::{Code, CodeNode};

impl Code {
    /// Whether neither an element nor `SYNCHED` stands in it.
    #[cycle(is_plain)]
    pub fn is_plain(&self) -> bool
        ensures { result ≡ is_plain self.now }
    {
        match &self.node {
            CodeNode::Number(_) | CodeNode::Variable(_) => true,
            CodeNode::Element(..) | CodeNode::Synched => false,
            CodeNode::Unary(_, operand) => operand.is_plain(),
            CodeNode::Binary(_, left, right) => left.is_plain() && right.is_plain(),
            CodeNode::Choose(test, first, second) => {
                test.is_plain() && first.is_plain() && second.is_plain()
            }
        }
    }
}
