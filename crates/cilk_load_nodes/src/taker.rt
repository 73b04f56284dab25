//! What a spawn in the tables says of its child's value, before its subscripts and arguments have values.

use crate::codes::Codes;
use crate::target::Target;

/// What takes the value of a child (Cilk 5.4 manual, `spawn`, `inlet`).
#[derive(Drop)]
pub enum Taker {
    /// Nothing does, as in `spawn f();`.
    Nothing,
    /// An implicit inlet, as in `x = spawn f();` and `x += spawn f();`.
    Into(Target),
    /// The number of an inlet's body, and what it is given behind the value.
    Through(u32, Codes),
}
