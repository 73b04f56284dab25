//! Places over slots: a variable, or an element whose subscript is an expression.

use crate::code::Code;
use crate::slot::Slot;

/// A variable, or an element of an array (C 1990, 6.3.2.1).
#[derive(Drop)]
pub struct SlotPlace {
    pub slot: Slot,
    pub subscript: Option<Code>,
}
