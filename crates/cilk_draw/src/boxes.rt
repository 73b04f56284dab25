//! The boxes of a picture: one for each column, in the lane of its worker. Each says in an attribute which choices it stands for.

use crate::column::Column;
use crate::elements::{fitting, put_note, put_rectangle, put_text};
use crate::grid::Grid;
use crate::pane::Pane;
use crate::picture::Picture;
use crate::wording::put_words;
use cilk_log_replay::{Act, Memory};
use std::alloc::Global;

/// Writes the numbers of the choices, and the boxes.
pub(crate) fn put_boxes(
    alloc: Global,
    out: &mut String,
    picture: &Picture,
    grid: &Grid,
) -> Result<(), Memory> {
    let mut place = 0_usize;
    for column in picture.columns.as_slice() {
        let pane = grid.pane(place, column.lane());
        put_number(alloc, out, column, pane.middle())?;
        put_box(alloc, out, picture, column, pane)?;
        place = place.saturating_add(1);
    }
    Ok(())
}

// The number of a choice stands above its column.
fn put_number(alloc: Global, out: &mut String, column: &Column, middle: u64) -> Result<(), Memory> {
    let first = column.first;
    let number = format!(in alloc; "{first}")?;
    put_text(out, middle, 96, "mid faint", number.as_str())
}

// A box carries its choices: the number of the first, how many there are, and the choice as a log has it.
fn put_box(
    alloc: Global,
    out: &mut String,
    picture: &Picture,
    column: &Column,
    pane: Pane,
) -> Result<(), Memory> {
    let first = column.first;
    let count = column.count;
    let worker = column.choice.worker;
    write!(out, "<g data-choice=\"{first} {worker} ")?;
    match column.choice.act {
        Act::Step => out.push_str("step")?,
        Act::Pop => out.push_str("pop")?,
        Act::Steal(victim) => write!(out, "steal {victim}")?,
    }
    write!(out, "\" data-count=\"{count}\">")?;
    let note = note_of(alloc, picture, column)?;
    put_note(out, note.as_str())?;
    if count > 1 {
        put_fold(alloc, out, count, pane)?;
    } else {
        put_face(alloc, out, column, pane, picture.is_racing(column))?;
    }
    out.push_str("</g>\n")?;
    Ok(())
}

// What is shown of a box that the pointer is on: what it did, and the line of the text.
fn note_of(alloc: Global, picture: &Picture, column: &Column) -> Result<String, Memory> {
    let first = column.first;
    let last = column.last();
    let worker = column.choice.worker;
    let mut note = String::new(alloc);
    if first == last {
        write!(note, "choice {first}, worker {worker}: ")?;
    } else {
        write!(note, "choices {first} to {last}, worker {worker}: ")?;
    }
    put_words(&mut note, column)?;
    if let Some(line) = line_numbered(picture.footer.text.as_str(), column.line) {
        note.push_str("\n")?;
        note.push_str(line.trim_ascii_start())?;
    }
    Ok(note)
}

// A line of a text, counted from 1.
fn line_numbered(text: &str, number: u32) -> Option<&str> {
    let mut left = number;
    for line in text.lines() {
        left = left.checked_sub(1)?;
        if left == 0 {
            return Some(line);
        }
    }
    None
}

// Several steps that touch nothing shared.
fn put_fold(alloc: Global, out: &mut String, count: u64, pane: Pane) -> Result<(), Memory> {
    put_rectangle(out, pane, "fold")?;
    let number = format!(in alloc; "{count}")?;
    put_text(out, pane.middle(), pane.below(23), "mid", number.as_str())
}

// One choice. That it races is told by a mark and a thicker edge too, and not by the colour alone.
fn put_face(
    alloc: Global,
    out: &mut String,
    column: &Column,
    pane: Pane,
    is_racing: bool,
) -> Result<(), Memory> {
    let is_step = matches!(column.choice.act, Act::Step);
    put_rectangle(out, pane, class_of(is_step, is_racing))?;
    if is_racing {
        put_text(
            out,
            pane.left.saturating_add(4),
            pane.below(14),
            "alarm",
            "!",
        )?;
    }
    let mut above = String::new(alloc);
    let line = column.line;
    if is_step && line != 0 {
        write!(above, "line {line}")?;
    } else {
        above.push_str(column.instance.as_str())?;
    }
    let shown = fitting(alloc, above.as_str(), pane)?;
    put_text(out, pane.middle(), pane.below(15), "mid", shown.as_str())?;
    let shown = fitting(alloc, column.caption.as_str(), pane)?;
    put_text(out, pane.middle(), pane.below(30), "mid", shown.as_str())
}

fn class_of(is_step: bool, is_racing: bool) -> &'static str {
    if is_racing {
        "box clash"
    } else if is_step {
        "box"
    } else {
        "move"
    }
}
