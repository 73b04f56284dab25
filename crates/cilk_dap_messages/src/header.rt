//! The header of a message: lines that end in a return and a newline, up to an empty one, among them the length of what follows.

use crate::fault::MessageFault;
use std::io::Read;

// A header has at most so many bytes.
const MOST_HEADER: u32 = 4_096;

/// Takes the bytes of the next header, and tells whether there is one: none where no byte is left. They are read one by one, so that none behind
/// the header is taken.
pub(crate) fn take_header<R: Read>(
    reader: &mut R,
    header: &mut Vec<u8>,
) -> Result<bool, MessageFault> {
    for taken in 0..MOST_HEADER {
        match next_byte(reader)? {
            None if taken == 0 => return Ok(false),
            None => return Err(MessageFault::Read),
            Some(byte) => {
                if header.push(byte).is_err() {
                    return Err(MessageFault::Memory);
                }
            }
        }
        if header.as_slice().ends_with(b"\r\n\r\n") {
            return Ok(true);
        }
    }
    Err(MessageFault::Read)
}

fn next_byte<R: Read>(reader: &mut R) -> Result<Option<u8>, MessageFault> {
    let mut byte = [0];
    match reader.read(&mut byte) {
        Err(_) => Err(MessageFault::Read),
        Ok(0) => Ok(None),
        Ok(_) => Ok(Some(byte[0])),
    }
}

/// How many bytes follow a header, where it tells that.
pub(crate) fn length_in(header: &[u8]) -> Option<u64> {
    for line in header.split(|byte| *byte == b'\n') {
        if let Some(number) = line.strip_prefix(b"Content-Length:") {
            return number_in(number);
        }
    }
    None
}

fn number_in(text: &[u8]) -> Option<u64> {
    match std::str::from_utf8(text) {
        Err(_) => None,
        Ok(text) => text.trim().parse::<u64>().ok(),
    }
}
