//! The curves of a picture, each between the boxes of two choices that race.

use crate::elements::put_note;
use crate::grid::Grid;
use crate::pane::Pane;
use crate::picture::Picture;
use crate::race::Race;
use crate::wording::put_race;
use cilk_log_replay::Memory;
use std::alloc::Global;

// How far the curve of two boxes in one lane hangs below them.
const HANG: u64 = 40;

/// Writes them.
pub(crate) fn put_curves(
    alloc: Global,
    out: &mut String,
    picture: &Picture,
    grid: &Grid,
) -> Result<(), Memory> {
    for race in picture.races.as_slice() {
        if let Some(one) = pane_of(picture, grid, race.first) {
            if let Some(other) = pane_of(picture, grid, race.second) {
                put_curve(alloc, out, race, one, other)?;
            }
        }
    }
    Ok(())
}

// The box of the choice of a number.
fn pane_of(picture: &Picture, grid: &Grid, choice: u64) -> Option<Pane> {
    match picture.column_of(choice) {
        None => None,
        Some((place, column)) => Some(grid.pane(place, column.lane())),
    }
}

// A curve carries the numbers of both choices.
fn put_curve(
    alloc: Global,
    out: &mut String,
    race: &Race,
    one: Pane,
    other: Pane,
) -> Result<(), Memory> {
    let first = race.first;
    let second = race.second;
    let left = one.middle();
    let right = other.middle();
    let (from, to) = ends_of(one, other);
    let bend = bend_of(one, other, from, to);
    write!(out, "<path class=\"race\" data-race=\"{first} {second}\" ")?;
    write!(
        out,
        "d=\"M{left},{from} C{left},{bend} {right},{bend} {right},{to}\">"
    )?;
    let mut note = String::new(alloc);
    put_race(&mut note, race)?;
    put_note(out, note.as_str())?;
    out.push_str("</path>\n")?;
    Ok(())
}

// Where it leaves the one box and comes to the other: between them, or below both.
fn ends_of(one: Pane, other: Pane) -> (u64, u64) {
    if one.top < other.top {
        (one.bottom(), other.top)
    } else if other.top < one.top {
        (one.top, other.bottom())
    } else {
        (one.bottom(), other.bottom())
    }
}

// How far down it is bent.
fn bend_of(one: Pane, other: Pane, from: u64, to: u64) -> u64 {
    if one.top == other.top {
        from.saturating_add(HANG)
    } else {
        from.saturating_add(to) / 2
    }
}
