//! What a step moves out of a machine, by which it can be put back.

use cilk_machine_agree::{Activation, Frame, Remains};

/// What the last step that moved something out of a machine moved out of it.
#[derive(Drop)]
pub enum Spent {
    Nothing,
    /// The activation that was left.
    Activation(Option<Activation>),
    /// The frame of the instance that ended, and what is left of that.
    Instance(Frame, Option<Remains>),
}
