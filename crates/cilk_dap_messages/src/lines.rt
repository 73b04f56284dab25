//! The lines of the debugger's views, and what stands in them.

use std::alloc::{AllocError, Global};

/// The lines of a text.
pub(crate) fn lines_of<'a>(alloc: Global, text: &'a str) -> Result<Vec<&'a str>, AllocError> {
    let mut lines = Vec::new(alloc);
    match take_lines(text, &mut lines) {
        Err(memory) => {
            drop(lines);
            Err(memory)
        }
        Ok(()) => Ok(lines),
    }
}

fn take_lines<'a>(text: &'a str, lines: &mut Vec<&'a str>) -> Result<(), AllocError> {
    for line in text.lines() {
        lines.push(line)?;
    }
    Ok(())
}

/// Puts a line behind those of a text.
pub(crate) fn put_line(line: &str, out: &mut String) -> Result<(), AllocError> {
    out.push_str(line)?;
    out.push_str("\n")
}

/// The line that tells of a worker, counted from 1, in the view `where`: its first line is that of the position.
pub fn worker_line<'a>(view: &'a str, worker: u64) -> Option<&'a str> {
    if worker == 0 {
        return None;
    }
    let mut number: u64 = 0;
    for line in view.lines() {
        if number == worker {
            return Some(line);
        }
        number = number.saturating_add(1);
    }
    None
}

/// The path of the instance in the hand of a worker, in the line of `where` on it: `worker 2 at /1 line 5`.
pub fn hand_in<'a>(line: &'a str) -> Option<&'a str> {
    let (_, behind) = line.split_once(" at ")?;
    let (path, _) = behind.split_once(" line ")?;
    Some(path)
}

/// The path of the instance that made the one with this path: `/1` of `/1/2`, `/` of `/1`, and none of `/`.
pub fn parent_of<'a>(path: &'a str) -> Option<&'a str> {
    let (front, last) = path.rsplit_once('/')?;
    if !front.is_empty() {
        Some(front)
    } else if last.is_empty() {
        None
    } else {
        Some("/")
    }
}

/// The name and the line of an activation, by the line of `frame` that begins it: `add line 5`. Lines of variables begin with blanks.
pub(crate) fn activation_in<'a>(line: &'a str) -> Option<(&'a str, u64)> {
    if line.starts_with(' ') {
        return None;
    }
    let (name, number) = line.split_once(" line ")?;
    match number.parse::<u64>() {
        Ok(number) => Some((name, number)),
        Err(_) => None,
    }
}

/// The name and the value of a variable, in its line: `total = 20`.
pub(crate) fn variable_in<'a>(line: &'a str) -> Option<(&'a str, &'a str)> {
    let (name, value) = line.split_once(" =")?;
    Some((name.trim(), value.trim()))
}

/// The name of a lock or of a worker and how it stands, in its line: `guard: held /1`.
pub(crate) fn standing_in<'a>(line: &'a str) -> Option<(&'a str, &'a str)> {
    line.split_once(": ")
}
