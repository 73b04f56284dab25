//! Which marks are operators, how tightly they bind, and with which tokens expressions begin.

ghost use Rattle.std.specs.Prelude.{◌≡◌};
ghost use Rattle.cilk_parse_grammar.specs.Begins.{begins_by};
ghost use Rattle.cilk_parse_grammar.specs.Classes.{a_mark};
ghost use Rattle.cilk_parse_grammar.specs.Operators.{infix_of, sign_of};

use cilk_tree_syntax::{BinOp, Keyword, Mark, TokenKind, UnOp};

/// What goes on behind an operand: an operator and a second operand, or `?` (C 1990, 6.3.5 to 6.3.15).
#[derive(Clone, Copy)]
pub(crate) enum Infix {
    Two(BinOp),
    Choice,
}

/// What a mark is behind an operand, and how tightly it binds.
pub(crate) fn infix_of(mark: Mark) -> Option<(u32, Infix)>
    ensures { result ≡ infix_of (a_mark mark) }
{
    match mark {
        Mark::Question => Some((0, Infix::Choice)),
        Mark::Or => Some((1, Infix::Two(BinOp::Or))),
        Mark::And => Some((2, Infix::Two(BinOp::And))),
        Mark::Bar => Some((3, Infix::Two(BinOp::BitOr))),
        Mark::Caret => Some((4, Infix::Two(BinOp::BitXor))),
        Mark::Ampersand => Some((5, Infix::Two(BinOp::BitAnd))),
        Mark::Equal => Some((6, Infix::Two(BinOp::Equal))),
        Mark::NotEqual => Some((6, Infix::Two(BinOp::NotEqual))),
        Mark::Less => Some((7, Infix::Two(BinOp::Less))),
        Mark::LessOrEqual => Some((7, Infix::Two(BinOp::LessOrEqual))),
        Mark::Greater => Some((7, Infix::Two(BinOp::Greater))),
        Mark::GreaterOrEqual => Some((7, Infix::Two(BinOp::GreaterOrEqual))),
        Mark::ShiftLeft => Some((8, Infix::Two(BinOp::ShiftLeft))),
        Mark::ShiftRight => Some((8, Infix::Two(BinOp::ShiftRight))),
        Mark::Plus => Some((9, Infix::Two(BinOp::Add))),
        Mark::Minus => Some((9, Infix::Two(BinOp::Subtract))),
        Mark::Star => Some((10, Infix::Two(BinOp::Multiply))),
        Mark::Slash => Some((10, Infix::Two(BinOp::Divide))),
        Mark::Percent => Some((10, Infix::Two(BinOp::Remainder))),
        _ => None,
    }
}

/// The operator that a mark is before one operand (C 1990, 6.3.3.3).
pub(crate) fn sign_of(mark: Mark) -> Option<UnOp>
    ensures { result ≡ sign_of (a_mark mark) }
{
    match mark {
        Mark::Minus => Some(UnOp::Minus),
        Mark::Plus => Some(UnOp::Plus),
        Mark::Exclamation => Some(UnOp::Not),
        Mark::Tilde => Some(UnOp::Complement),
        _ => None,
    }
}

/// Whether an expression begins with a token of this kind.
pub(crate) fn begins_by(kind: TokenKind) -> bool
    ensures { result ≡ begins_by kind }
{
    match kind {
        TokenKind::Number(_)
        | TokenKind::Name
        | TokenKind::Word(Keyword::Synched)
        | TokenKind::Mark(Mark::OpenParenthesis) => true,
        TokenKind::Mark(mark) => sign_of(mark).is_some(),
        _ => false,
    }
}
