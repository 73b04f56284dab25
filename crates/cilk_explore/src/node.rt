//! What is kept of each log that a search has found.

use cilk_machine::Choice;
use std::mem::size_of;

/// A log that was found: that of an earlier node, and one choice more.
#[derive(Clone, Copy)]
pub(crate) struct Node {
    /// The number of the earlier node. The first has its own.
    pub parent: u32,
    /// The last node before this one with the same digest, or this one's own number.
    pub before: u32,
    /// The last choice of the log. That of the first node is none.
    pub choice: Choice,
    /// What all that lives behind the log comes to, as a number (`Tag`).
    pub mixed: u32,
}

const _: () = prove!(size_of::<Node>() <= 16);
