//! The bytes of a reader: those of a program, or of a recorded schedule.

ghost use Rattle.std.specs.Prelude.{◌≢◌, ◌≡◌, ◌≤◌, ◌⊎◌, IfOk, IfErr, length};
ghost use Rattle.cilk_commands.specs.Held.{IsReadOf, IsAllOf};
ghost use Rattle.cilk_commands.specs.Status.{status_of};

use crate::failure::Failure;
use crate::status::Status;
use cilk_check_explain::TEXT_LIMIT;
use std::alloc::Global;
use std::io;
use std::io::{ErrorKind, Read};

// One byte more than a text may have, so that a longer one is seen.
const MOST_BYTES: u64 = TEXT_LIMIT as u64 + 1;

/// A recorded schedule has at most so many bytes.
pub const RECORD_LIMIT: usize = 268_435_456;

// One byte more than that.
const MOST_RECORDED: u64 = RECORD_LIMIT as u64 + 1;

/// The bytes that a reader holds, or as many as tell that they are too many.
pub fn read_text<R: Read>(alloc: Global, reader: &mut R) -> Result<Vec<u8>, Failure>
    ensures ok { IfOk result (λ text. IsReadOf (R.remaining reader.old) text.items) }
    ensures status { IfErr result (λ why. status_of why ≢ Status.Refused) }
    ensures reads { IfErr result (λ why. status_of why ≢ Status.CannotWrite) }
{
    let mut bytes = Vec::new(alloc);
    match reader.take(MOST_BYTES).read_to_end(&mut bytes) {
        Ok(_) => Ok(bytes),
        Err(error) => Err(unread(&error)),
    }
}

/// The bytes that a reader holds, if they are no more than a recorded schedule may have. At most one more is read.
pub fn read_record<R: Read>(alloc: Global, reader: &mut R) -> Result<Vec<u8>, Failure>
    ensures ok { IfOk result (λ bytes. IsAllOf (R.remaining reader.old) bytes.items) }
    ensures few { IfOk result (λ bytes. length bytes.items ≤ RECORD_LIMIT) }
    ensures err { IfErr result (λ why. (why ≡ Failure.Memory) ⊎ (why ≡ Failure.CannotRead)) }
{
    let mut bytes = Vec::new(alloc);
    match reader.take(MOST_RECORDED).read_to_end(&mut bytes) {
        Ok(_) if bytes.len() <= RECORD_LIMIT => Ok(bytes),
        Ok(_) => Err(Failure::CannotRead),
        Err(error) => Err(unread(&error)),
    }
}

fn unread(error: &io::Error) -> Failure
    ensures { (result ≡ Failure.Memory) ⊎ (result ≡ Failure.CannotRead) }
{
    match error.kind() {
        ErrorKind::OutOfMemory => Failure::Memory,
        _ => Failure::CannotRead,
    }
}
