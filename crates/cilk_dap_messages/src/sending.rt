//! How a message is written to a stream.

use crate::answers::refusal;
use crate::asked::Asked;
use crate::fault::MessageFault;
use crate::framing::{MOST_BYTES, TOO_LONG};
use crate::message::Message;
use itoa::Buffer;
use std::alloc::{AllocError, Global};
use std::io::Write;

/// Sends the response of this number, that what is asked is done; one that is too long is none.
pub fn conclude<W: Write>(
    alloc: Global,
    number: u64,
    asked: &Asked<'_>,
    message: &mut Message,
    writer: &mut W,
) -> Result<(), MessageFault> {
    match ended(message) {
        Err(_) => Err(MessageFault::Memory),
        Ok(bytes) => {
            if bytes.len() <= MOST_BYTES {
                send_message(writer, bytes.as_slice())
            } else {
                refuse(alloc, number, asked, TOO_LONG, writer)
            }
        }
    }
}

// The bytes of a message that ends.
fn ended(message: &mut Message) -> Result<Vec<u8>, AllocError> {
    message.end()?;
    message.to_vec()
}

/// Sends the response of this number, that what is asked is not done.
pub fn refuse<W: Write>(
    alloc: Global,
    number: u64,
    asked: &Asked<'_>,
    words: &str,
    writer: &mut W,
) -> Result<(), MessageFault> {
    send(refusal(alloc, number, asked, words), writer)
}

/// Sends a message, where memory sufficed to make it.
pub fn send<W: Write>(
    made: Result<Message, AllocError>,
    writer: &mut W,
) -> Result<(), MessageFault> {
    match made {
        Err(_) => Err(MessageFault::Memory),
        Ok(message) => send_bytes(message.to_vec(), writer),
    }
}

fn send_bytes<W: Write>(
    made: Result<Vec<u8>, AllocError>,
    writer: &mut W,
) -> Result<(), MessageFault> {
    match made {
        Err(_) => Err(MessageFault::Memory),
        Ok(bytes) => send_message(writer, bytes.as_slice()),
    }
}

/// Whether a message that was sent is the last one: more may follow it.
pub fn more(sent: Result<(), MessageFault>) -> Result<bool, MessageFault> {
    match sent {
        Err(fault) => Err(fault),
        Ok(()) => Ok(false),
    }
}

// Writes a message behind its header, and flushes it.
fn send_message<W: Write>(writer: &mut W, body: &[u8]) -> Result<(), MessageFault> {
    let mut buffer = Buffer::new();
    write_part(writer, b"Content-Length: ")?;
    write_part(writer, buffer.format(body.len()).as_bytes())?;
    write_part(writer, b"\r\n\r\n")?;
    write_part(writer, body)?;
    match writer.flush() {
        Err(_) => Err(MessageFault::Write),
        Ok(()) => Ok(()),
    }
}

fn write_part<W: Write>(writer: &mut W, part: &[u8]) -> Result<(), MessageFault> {
    match writer.write_all(part) {
        Err(_) => Err(MessageFault::Write),
        Ok(()) => Ok(()),
    }
}
