//! The scopes of a frame, and their numbers.

use crate::message::Message;
use std::alloc::AllocError;

/// The number of the scope that has the variables of the top level. The scope of a frame has the number of that.
pub const GLOBALS: u64 = 1;

/// The number of the scope that has the locks.
pub const LOCKS: u64 = 2;

/// The number of the scope that has the deques.
pub const DEQUES: u64 = 3;

// The scopes that all frames have.
const SHARED: &[(&str, u64)] = &[("Globals", GLOBALS), ("Locks", LOCKS), ("Deques", DEQUES)];

/// The scopes of a frame of this number.
pub fn put_scopes(frame: u64, message: &mut Message) -> Result<(), AllocError> {
    message.begin_body("scopes")?;
    put_scope("Frame", frame, message)?;
    for (name, number) in SHARED {
        put_scope(name, *number, message)?;
    }
    message.end_body()
}

fn put_scope(name: &str, number: u64, message: &mut Message) -> Result<(), AllocError> {
    message.begin_item()?;
    message.text("name", name)?;
    message.number("variablesReference", number)?;
    message.flag("expensive", false)?;
    message.end()
}
