//! The slots of variables: which cells of which area are theirs.

use crate::area::Area;

/// The place of a variable: its cells stand one after another in an area.
#[derive(Clone, Copy, Debug, PartialEq, Eq)]
pub struct Slot {
    pub area: Area,
    /// The first cell, counted from 0.
    pub offset: u32,
    /// How many elements the array has, or 0 for a variable that is no array, which has one cell.
    pub length: u32,
}
