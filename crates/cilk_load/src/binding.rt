//! What a name of the text becomes in nodes: a slot or a number.

use cilk_load_nodes::Slot;

/// What a name stands for: the slot of a variable, and the number of the declaration among those of its kind.
#[derive(Clone, Copy)]
pub struct Binding {
    pub slot: Slot,
    pub number: u32,
}
