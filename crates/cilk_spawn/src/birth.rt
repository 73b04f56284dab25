//! What an instance is born with.

use cilk_frame::{Id, Receiver};

/// What is settled of an instance before it does anything.
#[derive(Drop)]
pub struct Birth {
    pub parent: Option<Id>,
    pub ordinal: u32,
    pub procedure: u32,
    pub aborted: bool,
    pub receiver: Receiver,
}
