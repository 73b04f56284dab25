//! The lanes of the workers: their names, bars of the instances in their hands, and an arrow for each steal.

use crate::column::Column;
use crate::elements::{fitting, put_note, put_rectangle, put_text};
use crate::grid::{Grid, MARGIN};
use crate::hue::hue_of;
use crate::pane::Pane;
use crate::picture::Picture;
use crate::ribbon::Ribbon;
use cilk_log_replay::{Act, Memory};
use std::alloc::Global;

/// Writes the lanes, and the bars in them.
pub(crate) fn put_lanes(
    alloc: Global,
    out: &mut String,
    picture: &Picture,
    grid: &Grid,
) -> Result<(), Memory> {
    let mut worker = 0_u64;
    for hand in picture.hands.as_slice() {
        let lane = grid.lane(worker);
        put_rectangle(out, lane, "lane")?;
        put_text(out, MARGIN - 12, lane.below(32), "name", hand.name.as_str())?;
        out.push_str("\n")?;
        put_bars(alloc, out, grid, hand, worker)?;
        worker = worker.saturating_add(1);
    }
    Ok(())
}

fn put_bars(
    alloc: Global,
    out: &mut String,
    grid: &Grid,
    hand: &Ribbon,
    worker: u64,
) -> Result<(), Memory> {
    let mut place = 0_usize;
    for patch in hand.patches.as_slice() {
        let from = grid.bend(patch.from);
        let pane = grid.bar(from, end_of(grid, hand, place), worker);
        if !patch.text.is_empty() {
            put_bar(alloc, out, patch.text.as_str(), pane)?;
        }
        place = place.saturating_add(1);
    }
    Ok(())
}

/// Where a patch of a ribbon ends.
pub(crate) fn end_of(grid: &Grid, ribbon: &Ribbon, place: usize) -> u64 {
    match ribbon.patches.get(place.saturating_add(1)) {
        None => grid.right(),
        Some(next) => grid.bend(next.from),
    }
}

fn put_bar(alloc: Global, out: &mut String, path: &str, pane: Pane) -> Result<(), Memory> {
    out.push_str("<g>")?;
    put_note(out, path)?;
    put_rectangle(out, pane, hue_of(path))?;
    let words = fitting(alloc, path, pane)?;
    put_text(
        out,
        pane.left.saturating_add(5),
        pane.below(16),
        "word",
        words.as_str(),
    )?;
    out.push_str("</g>\n")?;
    Ok(())
}

/// Writes an arrow for each steal, from the lane of the victim to the box.
pub(crate) fn put_arrows(out: &mut String, picture: &Picture, grid: &Grid) -> Result<(), Memory> {
    let mut place = 0_usize;
    for column in picture.columns.as_slice() {
        put_arrow(out, column, grid, place)?;
        place = place.saturating_add(1);
    }
    Ok(())
}

fn put_arrow(out: &mut String, column: &Column, grid: &Grid, place: usize) -> Result<(), Memory> {
    let Act::Steal(victim) = column.choice.act else {
        return Ok(());
    };
    let thief = column.lane();
    let victim = u64::from(victim.saturating_sub(1));
    let end = grid.pane(place, thief);
    let bar = grid.bar(MARGIN, MARGIN, victim);
    let (from, to) = if victim < thief {
        (bar.bottom(), end.top)
    } else {
        (grid.pane(place, victim).top, end.bottom())
    };
    let x = end.middle();
    write!(
        out,
        "<line class=\"arrow\" x1=\"{x}\" y1=\"{from}\" x2=\"{x}\" y2=\"{to}\" "
    )?;
    out.push_str("marker-end=\"url(#tip)\"/>\n")?;
    Ok(())
}
