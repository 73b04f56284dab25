//! From the lines of a view to ribbons.

use crate::ribbon::Ribbon;
use cilk_log_replay::Memory;
use std::alloc::Global;

/// The views whose lines are kept.
#[derive(Clone, Copy)]
pub enum Kind {
    /// Where each worker goes on.
    Hands,
    /// The variables and the locks of the top level.
    Globals,
}

/// Notes the lines of a view, one a ribbon, behind so many columns.
pub fn note_lines(
    alloc: Global,
    ribbons: &mut Vec<Ribbon>,
    kind: Kind,
    text: &str,
    at: usize,
) -> Result<(), Memory> {
    let mut place = 0_usize;
    for line in text.lines() {
        let (name, value) = parts_of(kind, line);
        if place < ribbons.len() {
            ribbons[place].note(alloc, at, value)?;
        } else {
            ribbons.push(Ribbon::new(alloc, name, value)?)?;
        }
        place = place.saturating_add(1);
    }
    Ok(())
}

// What a line is of, and its value.
fn parts_of(kind: Kind, line: &str) -> (&str, &str) {
    match kind {
        Kind::Hands => hand_in(line),
        Kind::Globals => global_in(line),
    }
}

// Of `worker 1 at /1 line 5` the name and the path, and of `worker 2 idle` no path.
fn hand_in(line: &str) -> (&str, &str) {
    match line.split_once(" at ") {
        Some((name, place)) => match place.split_once(" line ") {
            Some((path, _)) => (name, path),
            None => (name, place),
        },
        None => match line.split_once(" idle") {
            Some((name, _)) => (name, ""),
            None => (line, ""),
        },
    }
}

// Of `total = 10` and of `guard: held /1`.
fn global_in(line: &str) -> (&str, &str) {
    match line.split_once(" = ") {
        Some(parts) => parts,
        None => match line.split_once(": ") {
            Some(parts) => parts,
            None => (line, ""),
        },
    }
}
