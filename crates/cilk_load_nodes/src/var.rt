//! One variable or lock in the tables: its name, where it lies, and what its cells begin with.

use crate::name::Name;
use crate::slot::Slot;

/// A variable, and where it lies.
#[derive(Drop)]
pub struct Var {
    pub name: Name,
    pub slot: Slot,
    /// How many elements the array has, or 0 for a variable that is no array.
    pub length: u32,
    /// What its cells hold before any action.
    pub initial: i32,
}
