//! Accesses of cells that other instances, or other threads of the same one, may see.

/// A cell that others see, where the instance that touches it is known.
#[derive(Clone, Copy, PartialEq, Eq)]
pub enum Spot {
    /// Of a variable of the top level, counted from 0: which element, or 0 where it is no array.
    Global { variable: usize, index: u32 },
    /// Of a variable of the instance's procedure.
    Own { variable: usize, index: u32 },
    /// What is printed.
    Output,
    /// Whether the instance has nothing to wait for.
    Synched,
}

/// A cell that a step reads or writes.
#[derive(Clone, Copy)]
pub struct Access {
    pub at: Spot,
    pub writes: bool,
}
