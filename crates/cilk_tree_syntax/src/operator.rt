//! The operators between two operands, and how each is written.

ghost use Rattle.std.specs.Prelude.{◌≡◌};
ghost use Rattle.cilk_tree_syntax.specs.OperatorMark.{mark_of};

/// An operator between two operands (C 1990, 6.3.5 to 6.3.14).
#[derive(Clone, Copy, Debug, PartialEq, Eq)]
pub enum BinOp {
    Multiply,
    Divide,
    Remainder,
    Add,
    Subtract,
    ShiftLeft,
    ShiftRight,
    Less,
    LessOrEqual,
    Greater,
    GreaterOrEqual,
    Equal,
    NotEqual,
    BitAnd,
    BitXor,
    BitOr,
    And,
    Or,
}

impl BinOp {
    /// The operator as C writes it.
    pub fn mark(self) -> &'static str
        ensures { result.now ≡ mark_of self }
    {
        match self {
            BinOp::Multiply => "*",
            BinOp::Divide => "/",
            BinOp::Remainder => "%",
            BinOp::Add => "+",
            BinOp::Subtract => "-",
            BinOp::ShiftLeft => "<<",
            BinOp::ShiftRight => ">>",
            BinOp::Less => "<",
            BinOp::LessOrEqual => "<=",
            BinOp::Greater => ">",
            BinOp::GreaterOrEqual => ">=",
            BinOp::Equal => "==",
            BinOp::NotEqual => "!=",
            BinOp::BitAnd => "&",
            BinOp::BitXor => "^",
            BinOp::BitOr => "|",
            BinOp::And => "&&",
            BinOp::Or => "||",
        }
    }
}
