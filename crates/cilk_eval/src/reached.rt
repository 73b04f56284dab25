//! Which cell a place comes to, once its subscript has a value.

use crate::Slot;

/// A cell that was reached: an element of an array, or the one cell of a variable.
#[derive(Clone, Copy)]
pub struct Reached {
    pub slot: Slot,
    /// Which element, from 0 on; 0 where the variable is no array.
    pub index: u32,
}
