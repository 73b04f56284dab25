//! The adjustments `++` and `--`, and the operator that each stands for.

ghost use Rattle.std.specs.Prelude.{◌≡◌};
ghost use Rattle.cilk_tree_syntax.specs.Adjustments.{adjustment_mark, operator_of};

use crate::operator::BinOp;

/// Whether 1 is added to a variable or subtracted from it (C 1990, 6.3.2.4 and 6.3.3.1).
#[derive(Clone, Copy, PartialEq, Eq)]
pub enum Adjustment {
    Increment,
    Decrement,
}

impl Adjustment {
    /// The operator as C writes it.
    pub fn mark(self) -> &'static str
        ensures { result.now ≡ adjustment_mark self }
    {
        match self {
            Adjustment::Increment => "++",
            Adjustment::Decrement => "--",
        }
    }

    /// The operator between the old value and 1.
    pub fn operator(self) -> BinOp
        ensures { result ≡ operator_of self }
    {
        match self {
            Adjustment::Increment => BinOp::Add,
            Adjustment::Decrement => BinOp::Subtract,
        }
    }
}
