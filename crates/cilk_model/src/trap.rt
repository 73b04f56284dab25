//! The traps of expressions: overflow, division by 0, and bad shifts and subscripts.

/// Why an expression has no value.
#[derive(Clone, Copy, Debug, PartialEq, Eq)]
pub enum Trap {
    /// The exact result is no `int` (C 1990, 6.3).
    Overflow,
    /// A division by 0 (C 1990, 6.3.5).
    ZeroDivide,
    /// A shift by a count outside 0 to 31, or to the left of a negative number (C 1990, 6.3.7).
    Shift,
    /// A subscript outside its array (C 1990, 6.3.2.1).
    Index,
}
