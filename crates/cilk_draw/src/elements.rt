//! The elements of an SVG that pictures are made of.

use crate::escaping::put_escaped;
use crate::pane::Pane;
use crate::ribbon::front_of;
use cilk_log_replay::Memory;
use std::alloc::Global;

/// Writes a rectangle of a class.
pub(crate) fn put_rectangle(out: &mut String, pane: Pane, class: &str) -> Result<(), Memory> {
    let Pane {
        left,
        top,
        width,
        height,
    } = pane;
    write!(out, "<rect class=\"{class}\" x=\"{left}\" y=\"{top}\" ")?;
    write!(out, "width=\"{width}\" height=\"{height}\" rx=\"4\"/>")?;
    Ok(())
}

/// Writes a text of a class, which stands on the line of that height.
pub(crate) fn put_text(
    out: &mut String,
    x: u64,
    y: u64,
    class: &str,
    text: &str,
) -> Result<(), Memory> {
    write!(
        out,
        "<text class=\"{class}\" x=\"{x}\" y=\"{y}\" xml:space=\"preserve\">"
    )?;
    put_escaped(out, text)?;
    out.push_str("</text>")?;
    Ok(())
}

/// Writes what is shown of an element that the pointer is on.
pub(crate) fn put_note(out: &mut String, text: &str) -> Result<(), Memory> {
    out.push_str("<title>")?;
    put_escaped(out, text)?;
    out.push_str("</title>")?;
    Ok(())
}

/// As much of a text as a rectangle has room for in one line: all, or its front and two dots, or nothing.
pub(crate) fn fitting(alloc: Global, text: &str, pane: Pane) -> Result<String, Memory> {
    let room = pane.letters();
    if text.len() <= room {
        return Ok(String::from_str(alloc, text)?);
    }
    if room < 4 {
        return Ok(String::new(alloc));
    }
    let mut front = front_of(alloc, text, room.saturating_sub(2))?;
    front.push_str("..")?;
    Ok(front)
}
