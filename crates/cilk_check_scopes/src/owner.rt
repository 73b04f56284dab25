//! The bodies that may surround a part of a program: a function's, a procedure's or an inlet's.

use cilk_tree_syntax::ReturnType;

/// Whose body a part of a program stands in: the innermost one.
#[derive(Clone, Copy)]
pub enum Owner {
    /// A C function, and what it returns (C 1990, 6.7.1).
    Function(ReturnType),
    /// A Cilk procedure, and what it returns (Cilk 5.4 manual, `cilk`).
    Procedure(ReturnType),
    /// An inlet (Cilk 5.4 manual, `inlet`).
    Inlet,
}
