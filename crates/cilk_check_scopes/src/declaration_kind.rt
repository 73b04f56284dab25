//! The kinds of things that a name may be declared as.

use cilk_tree_syntax::ReturnType;

/// What a name is declared as.
#[derive(Clone, Copy)]
pub enum DeclarationKind {
    /// An `int` variable or parameter (C 1990, 6.5.2).
    Variable,
    /// An array, and its length (C 1990, 6.5.4.2).
    Array(u32),
    /// A lock (Cilk 5.4 manual, locks).
    Lock,
    /// The second parameter of the form of `main` that is told of the command line (C 1990, 5.1.2.2.1).
    Strings,
    /// A C function, what it returns, and how many parameters it has (C 1990, 6.7.1).
    Function(ReturnType, usize),
    /// A Cilk procedure, likewise (Cilk 5.4 manual, `cilk`).
    Procedure(ReturnType, usize),
    /// An inlet, and how many parameters it has (Cilk 5.4 manual, `inlet`).
    Inlet(usize),
}
