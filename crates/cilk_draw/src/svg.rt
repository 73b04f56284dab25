//! A picture as one SVG, which needs nothing else: no script, no font and no link.

use crate::below::{Reach, put_below};
use crate::boxes::put_boxes;
use crate::curves::put_curves;
use crate::elements::{put_note, put_rectangle, put_text};
use crate::grid::Grid;
use crate::lanes::{put_arrows, put_lanes};
use crate::pane::Pane;
use crate::picture::Picture;
use crate::rows::put_rows;
use crate::scheme::SCHEME;
use crate::wording::put_title;
use cilk_log_replay::Memory;
use std::alloc::Global;

// The height of the line of the title.
const TITLE: u64 = 34;

/// Writes a picture as an SVG, under a title.
pub fn put_svg(
    alloc: Global,
    out: &mut String,
    title: &str,
    picture: &Picture,
) -> Result<(), Memory> {
    let grid = Grid::new(alloc, picture)?;
    let mut body = String::new(alloc);
    put_lanes(alloc, &mut body, picture, &grid)?;
    put_boxes(alloc, &mut body, picture, &grid)?;
    put_arrows(&mut body, picture, &grid)?;
    put_curves(alloc, &mut body, picture, &grid)?;
    put_rows(alloc, &mut body, picture, &grid)?;
    let reach = put_below(alloc, &mut body, picture, grid.bottom())?;
    let mut head = String::new(alloc);
    put_title(&mut head, title, picture)?;
    put_opening(out, &grid, reach, head.as_str())?;
    out.push_str(body.as_str())?;
    out.push_str("</svg>\n")?;
    Ok(())
}

// How far the title reaches, in the large type.
fn width_of_title(head: &str) -> u64 {
    let title = match head.split_once('\n') {
        None => head,
        Some((title, _)) => title,
    };
    (title.len() as u64).saturating_mul(11).max(600)
}

// The size of the picture, its colours, its paper and its two lines of title.
fn put_opening(out: &mut String, grid: &Grid, reach: Reach, head: &str) -> Result<(), Memory> {
    let wide = grid.right().max(reach.right).max(width_of_title(head));
    let width = wide.saturating_add(20);
    let height = reach.bottom.saturating_add(20);
    write!(
        out,
        "<svg xmlns=\"http://www.w3.org/2000/svg\" width=\"{width}\" height=\"{height}\" "
    )?;
    write!(out, "viewBox=\"0 0 {width} {height}\" role=\"img\">")?;
    put_note(out, head)?;
    out.push_str("\n")?;
    out.push_str(SCHEME)?;
    let paper = Pane {
        left: 0,
        top: 0,
        width,
        height,
    };
    put_rectangle(out, paper, "paper")?;
    let mut y = TITLE;
    for line in head.lines() {
        let class = if y == TITLE { "title" } else { "faint" };
        put_text(out, 20, y, class, line)?;
        y = y.saturating_add(24);
    }
    out.push_str("\n")?;
    Ok(())
}
