//! What is told of breakpoints that an editor sets.

use crate::message::Message;
use std::alloc::AllocError;

/// Whether a breakpoint is set on a line, and why not.
pub fn put_break(
    line: u64,
    unset: Option<&'static str>,
    message: &mut Message,
) -> Result<(), AllocError> {
    message.begin_item()?;
    message.number("line", line)?;
    match unset {
        None => message.put_verified(),
        Some(words) => message.put_unverified(words),
    }
}
