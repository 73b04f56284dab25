//! The roles in which names are used: as variables, arrays, locks, functions, procedures or inlets.

/// What a name is used as.
#[derive(Clone, Copy)]
pub enum Role {
    /// An `int` variable (C 1990, 6.3.1).
    Variable,
    /// An array, of which an element is meant (C 1990, 6.3.2.1).
    Array,
    /// A lock (Cilk 5.4 manual, locks).
    Lock,
    /// A C function that is called with so many arguments, and whether for its value (C 1990, 6.3.2.2).
    Called(usize, bool),
    /// A Cilk procedure that is spawned, likewise (Cilk 5.4 manual, `spawn`).
    Spawned(usize, bool),
    /// An inlet that is given the value of a child, as the first of so many arguments (Cilk 5.4 manual, `inlet`).
    Fed(usize),
}
