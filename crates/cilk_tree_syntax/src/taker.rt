//! What a spawn of the tree says of its child's value.

use crate::expr::Expr;
use crate::target::Target;
use crate::word::Word;

/// What takes the value of a child (Cilk 5.4 manual, `spawn`, `inlet`). `taker_of` of `specs/MoveView.antt` is its
/// plain tree.
#[derive(Drop)]
pub enum Taker {
    Nothing,
    Into(Target),
    /// An inlet, and what it is given behind the value.
    Through(Word, Vec<Expr>),
}
