//! What an assignment comes to: a cell, and the value that it takes.

use crate::reached::Reached;

/// What an assignment writes.
#[derive(Clone, Copy)]
pub struct Written {
    /// The cell that takes the value.
    pub reached: Reached,
    pub value: i32,
}
