//! The rows of a picture: the values of each variable of the top level, and who holds each lock.

use crate::elements::{fitting, put_note, put_rectangle, put_text};
use crate::grid::{Grid, MARGIN};
use crate::lanes::end_of;
use crate::pane::Pane;
use crate::picture::Picture;
use crate::ribbon::Ribbon;
use cilk_log_replay::Memory;
use std::alloc::Global;

// How wide a name is at most, in the small type: names have a larger one.
const NAMES: u64 = 124;

/// Writes the rows.
pub(crate) fn put_rows(
    alloc: Global,
    out: &mut String,
    picture: &Picture,
    grid: &Grid,
) -> Result<(), Memory> {
    let mut row = 0_u64;
    for ribbon in picture.globals.as_slice() {
        put_row(alloc, out, grid, ribbon, row)?;
        row = row.saturating_add(1);
    }
    Ok(())
}

fn put_row(
    alloc: Global,
    out: &mut String,
    grid: &Grid,
    ribbon: &Ribbon,
    row: u64,
) -> Result<(), Memory> {
    let names = grid.strip(0, NAMES, row);
    let name = fitting(alloc, ribbon.name.as_str(), names)?;
    put_text(out, MARGIN - 12, names.below(15), "name", name.as_str())?;
    let mut place = 0_usize;
    for patch in ribbon.patches.as_slice() {
        let from = grid.bend(patch.from);
        let pane = grid.strip(from, end_of(grid, ribbon, place), row);
        put_value(alloc, out, patch.text.as_str(), pane)?;
        place = place.saturating_add(1);
    }
    Ok(())
}

fn put_value(alloc: Global, out: &mut String, value: &str, pane: Pane) -> Result<(), Memory> {
    out.push_str("<g>")?;
    put_note(out, value)?;
    put_rectangle(out, pane, "value")?;
    let words = fitting(alloc, value, pane)?;
    put_text(
        out,
        pane.left.saturating_add(5),
        pane.below(15),
        "word",
        words.as_str(),
    )?;
    out.push_str("</g>\n")?;
    Ok(())
}
