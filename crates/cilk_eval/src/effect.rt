//! The effects that actions may have, each with the values that it needs.

use crate::bytes::Bytes;
use crate::reached::Reached;
use crate::{Arguments, Await, LockAction, Receiver};

/// What an action comes to, once its expressions have their values.
#[derive(Drop)]
pub enum Effect {
    /// A cell takes a value.
    Writes(Reached, i32),
    /// What comes next is reached, with this value of a test. The plan of it is `Plan::Go`; `Plan::Answer` is of a C function that is left.
    Answers(i32),
    /// A C function is to start: what awaits its value, the number of its body, and its arguments. The plan of it is `Plan::Call`, where there is room;
    /// `Plan::Enter` is of an inlet that starts.
    Enters(Option<Await>, u32, Arguments),
    /// The body is left with a value.
    Gives(i32),
    /// A child is to start: what takes its value, the number of its body, and its arguments.
    Starts(Receiver, u32, Arguments),
    /// Bytes are printed.
    Prints(Bytes),
    /// One of the three calls of a lock, and the lock's number.
    TurnsLock(LockAction, u32),
    /// The children are to be aborted.
    Marks,
}
