//! Files that are written whole or not at all.

use crate::beside::name_beside;
use std::fs::{File, OpenOptions};
use std::io::{ErrorKind, Write};
use std::{fs, io};

// So many names are tried for a file beside another: one may be left where a run was ended while it wrote.
const NAMES: u32 = 1000;

/// Writes a text to what has this name. A file there, if there is one, stays as it was until another with the whole text
/// takes its place. A device, a pipe, or what a link leads to is written to where it stands. Nothing of it takes memory.
pub fn replace_file(rt: &HostRuntime, path: &str, text: &[u8]) -> io::Result<()> {
    if !is_replaced(rt, path)? {
        return write_to(File::create(rt, path)?, text);
    }
    for number in 0..NAMES {
        let beside = name_beside(path, number)?;
        match File::create_new(rt, beside.as_str()) {
            Ok(file) => return replace(rt, path, beside.as_str(), file, text),
            Err(error) if error.kind() == ErrorKind::AlreadyExists => {}
            Err(error) => return Err(error),
        }
    }
    Err(io::Error::from(ErrorKind::AlreadyExists))
}

// Whether a file is there, or nothing. A file that may not be written may not be replaced either.
fn is_replaced(rt: &HostRuntime, path: &str) -> io::Result<bool> {
    match fs::symlink_metadata(rt, path) {
        Ok(found) if found.is_file() => {
            OpenOptions::new().write(true).open(rt, path)?;
            Ok(true)
        }
        Ok(_) => Ok(false),
        Err(error) if error.kind() == ErrorKind::NotFound => Ok(true),
        Err(error) => Err(error),
    }
}

// Writes the text to the new file beside the place, and lets it take the place.
fn replace(rt: &HostRuntime, path: &str, beside: &str, file: File, text: &[u8]) -> io::Result<()> {
    keep_permissions(rt, path, &file);
    let moved = match write_to(file, text) {
        Ok(()) => fs::rename(rt, beside, path),
        Err(error) => Err(error),
    };
    if moved.is_err() {
        let _ = fs::remove_file(rt, beside);
    }
    moved
}

// Who might read and write the old file may read and write the new one, as far as the system lets it be said.
fn keep_permissions(rt: &HostRuntime, path: &str, file: &File) {
    if let Ok(old) = fs::metadata(rt, path) {
        let _ = file.set_permissions(old.permissions());
    }
}

fn write_to(mut file: File, text: &[u8]) -> io::Result<()> {
    file.write_all(text)?;
    file.flush()
}
