//! Whether a name in a body is a variable or an array, with its initialiser or its length.

use crate::expr::Expr;

/// An `int` variable and its initialiser, if there is one, or an array of a length (C 1990, 6.5.4.2, 6.5.7).
/// `shape_of` of `specs/MoveView.antt` is its plain tree.
#[derive(Drop)]
pub enum Shape {
    Variable(Option<Expr>),
    Array(u32),
}
