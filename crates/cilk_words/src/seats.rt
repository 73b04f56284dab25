//! What is opened where a standard stream is closed, before another file may take its number.

use std::fs::File;
use std::os::fd::AsRawFd;

// The numbers of the standard streams are up to this one.
const LAST: i32 = 2;

/// A file that stands where a standard stream is closed, if one is, so that no file that is opened later
/// is taken for that stream. It is the root folder, so that reading and writing it fails.
pub fn seat(rt: &HostRuntime) -> Option<File> {
    match File::open(rt, "/") {
        Ok(file) if file.as_raw_fd() <= LAST => Some(file),
        _ => None,
    }
}
