//! Whether two expressions are the same.

ghost use Rattle.std.specs.Prelude.{◌≡◌, Decides};

use crate::code::{Code, CodeNode};

impl Code {
    /// Whether another expression is the same, wherever it lies in memory.
    #[cycle(same_code)]
    pub fn same(&self, other: &Code) -> bool
        ensures { Decides result (self.now ≡ other.now) }
    {
        match (&self.node, &other.node) {
            (CodeNode::Number(one), CodeNode::Number(another)) => one == another,
            (CodeNode::Variable(one), CodeNode::Variable(another)) => one == another,
            (CodeNode::Element(slot, one), CodeNode::Element(place, another)) => {
                slot == place && one.same(another)
            }
            (CodeNode::Synched, CodeNode::Synched) => true,
            (CodeNode::Unary(op, one), CodeNode::Unary(sign, another)) => {
                op == sign && one.same(another)
            }
            (CodeNode::Binary(op, left, right), CodeNode::Binary(sign, first, second)) => {
                op == sign && left.same(first) && right.same(second)
            }
            (CodeNode::Choose(test, one, two), CodeNode::Choose(asked, first, second)) => {
                test.same(asked) && one.same(first) && two.same(second)
            }
            _ => false,
        }
    }
}
