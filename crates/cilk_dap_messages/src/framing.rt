//! The messages of an input, one behind the other: a header, and as many bytes as it tells.

ghost use Rattle.std.specs.Prelude.{◌≤◌, IfOk, length};
ghost use Rattle.cilk_dap_messages.specs.Framing.{HasAtMost};

use crate::fault::MessageFault;
use crate::header::{length_in, take_header};
use std::alloc::Global;
use std::io;
use std::io::{ErrorKind, Read};

/// A message has at most so many bytes behind its header.
pub(crate) const MOST_BYTES: usize = 1_048_576;

/// Why a message that has more is neither read nor sent.
pub const TOO_LONG: &str = "the message has more than 1048576 bytes";

// Bytes that nobody wants are read in portions of so many.
const PORTION: usize = 4_096;

/// What stands next in an input.
#[derive(Drop)]
pub enum Incoming {
    /// The bytes of a message, without its header.
    Body(Vec<u8>),
    /// A message with more than `MOST_BYTES` bytes, which were passed over.
    TooLong,
    /// No byte is left.
    End,
}

/// Reads the next message, and no byte behind it.
pub fn next_message<R: Read>(alloc: Global, reader: &mut R) -> Result<Incoming, MessageFault>
    ensures { IfOk result (HasAtMost 1048576) }
{
    match next_length(alloc, reader) {
        Err(fault) => Err(fault),
        Ok(None) => Ok(Incoming::End),
        Ok(Some(length)) => {
            if length <= MOST_BYTES as u64 {
                body_of(alloc, reader, length)
            } else {
                pass_over(reader, length)
            }
        }
    }
}

// The length that the next header tells, if there is one.
fn next_length<R: Read>(alloc: Global, reader: &mut R) -> Result<Option<u64>, MessageFault> {
    let mut header = Vec::new(alloc);
    match take_header(reader, &mut header) {
        Err(fault) => Err(fault),
        Ok(false) => Ok(None),
        Ok(true) => match length_in(header.as_slice()) {
            None => Err(MessageFault::Read),
            Some(length) => Ok(Some(length)),
        },
    }
}

// So many bytes.
fn body_of<R: Read>(alloc: Global, reader: &mut R, length: u64) -> Result<Incoming, MessageFault>
    ensures { IfOk result (HasAtMost length) }
{
    let mut bytes = Vec::new(alloc);
    match reader.take(length).read_to_end(&mut bytes) {
        Err(error) => Err(unread(&error)),
        Ok(_) if bytes.len() as u64 == length => Ok(Incoming::Body(bytes)),
        Ok(_) => Err(MessageFault::Read),
    }
}

fn unread(error: &io::Error) -> MessageFault {
    match error.kind() {
        ErrorKind::OutOfMemory => MessageFault::Memory,
        _ => MessageFault::Read,
    }
}

// So many bytes are read, and forgotten.
fn pass_over<R: Read>(reader: &mut R, length: u64) -> Result<Incoming, MessageFault>
    ensures { IfOk result (HasAtMost 1048576) }
{
    let mut portion = [0; PORTION];
    let mut left = length;
    // Each turn reads a byte at least.
    for _ in 0..length {
        let count = left.min(PORTION as u64) as usize;
        if count == 0 {
            return Ok(Incoming::TooLong);
        }
        match reader.read(&mut portion[..count]) {
            Ok(0) | Err(_) => return Err(MessageFault::Read),
            Ok(taken) => left = left.saturating_sub(taken as u64),
        }
    }
    Ok(Incoming::TooLong)
}
