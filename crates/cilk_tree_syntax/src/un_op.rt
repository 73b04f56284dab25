//! The operators before one operand, and how each is written.

ghost use Rattle.std.specs.Prelude.{◌≡◌};
ghost use Rattle.cilk_tree_syntax.specs.OperatorMark.{sign_of};

/// An operator before one operand (C 1990, 6.3.3.3).
#[derive(Clone, Copy, PartialEq, Eq)]
pub enum UnOp {
    Minus,
    Plus,
    Not,
    Complement,
}

impl UnOp {
    /// The operator as C writes it.
    pub fn mark(self) -> &'static str
        ensures { result.now ≡ sign_of self }
    {
        match self {
            UnOp::Minus => "-",
            UnOp::Plus => "+",
            UnOp::Not => "!",
            UnOp::Complement => "~",
        }
    }
}
