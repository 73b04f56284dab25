//! What an expression reads, by slots.

use cilk_load::Slot;

/// A cell that an expression reads.
#[derive(Clone, Copy)]
pub(crate) enum Read {
    /// Which element of a variable, or 0 where it is no array.
    Cell(Slot, u32),
    /// Whether the instance has nothing to wait for.
    Synched,
}
