//! The name of a log in a folder.

ghost use Rattle.std.specs.Prelude.{◌≡◌, IfOk};
ghost use Rattle.cilk_program.specs.Exploring.{log_at};

use arrayvec::ArrayString;
use cilk_words::LONGEST;
use std::fmt::Write;
use std::io;
use std::io::ErrorKind;

/// The name of the log with this number in a folder. It takes no memory.
pub fn name_within(folder: &str, number: u64) -> io::Result<ArrayString<LONGEST>>
    ensures { IfOk result (λ name. name.bytes ≡ log_at folder.now number) }
{
    let mut name = ArrayString::new();
    match write!(name, "{folder}/{number}.log") {
        Ok(()) => Ok(name),
        Err(_) => Err(io::Error::from(ErrorKind::InvalidFilename)),
    }
}
