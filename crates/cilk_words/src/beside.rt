//! The name of a file that is written beside another, until it takes the other's place.

ghost use Rattle.std.specs.Prelude.{◌≡◌, ◌++◌, IfOk, codes, decimal};
ghost use Rattle.cilk_words.specs.Beside.{name_beside};

use arrayvec::ArrayString;
use std::fmt::Write;
use std::io;
use std::io::ErrorKind;

/// The system takes no longer path.
pub const LONGEST: usize = 4095;

/// The name with this number for a file beside a path, in the same folder. It takes no memory: when a log is written the run
/// is over, and is not to be lost for want of a name.
pub fn name_beside(path: &str, number: u32) -> io::Result<ArrayString<LONGEST>>
    ensures { IfOk result (λ name. name.bytes ≡ name_beside path.now number) }
{
    match path.rsplit_once('/') {
        Some(parts) => name_in(parts.0, "/", number),
        None => name_in("", "", number),
    }
}

fn name_in(folder: &str, slash: &str, number: u32) -> io::Result<ArrayString<LONGEST>>
    ensures { IfOk result (λ name. name.bytes ≡ (folder.now ++ slash.now) ++ (codes ".cilk-log-" ++ decimal number)) }
{
    let mut name = ArrayString::new();
    match write!(name, "{folder}{slash}.cilk-log-{number}") {
        Ok(()) => Ok(name),
        Err(_) => Err(io::Error::from(ErrorKind::InvalidFilename)),
    }
}
