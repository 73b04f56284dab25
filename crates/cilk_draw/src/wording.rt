//! A picture in lines: a line for each column, with the workers beside one another, and then what is drawn below.

use crate::column::Column;
use crate::footer::Footer;
use crate::picture::Picture;
use crate::race::Race;
use crate::ribbon::Ribbon;
use cilk_log_replay::{Act, Memory};
use std::alloc::Global;

/// Writes a picture in lines, under a title.
pub fn put_lines(
    alloc: Global,
    out: &mut String,
    title: &str,
    picture: &Picture,
) -> Result<(), Memory> {
    put_title(out, title, picture)?;
    put_steps(alloc, out, picture)?;
    put_ribbons(out, picture)?;
    put_races(out, picture)?;
    put_footer(out, picture)
}

/// Writes the title of a picture, and of which choices it is.
pub(crate) fn put_title(out: &mut String, title: &str, picture: &Picture) -> Result<(), Memory> {
    let choices = picture.choices;
    let workers = picture.workers;
    let first = (picture.begin as u64).saturating_add(1);
    let end = picture.footer.end;
    out.push_str(title)?;
    out.push_str("\n")?;
    if end < first {
        write!(out, "none of {choices} choices, ")?;
    } else {
        write!(out, "choices {first} to {end} of {choices}, ")?;
    }
    let many = if workers == 1 { "worker" } else { "workers" };
    write!(out, "{workers} {many}, ")?;
    put_count(out, picture)
}

// How many races it shows.
fn put_count(out: &mut String, picture: &Picture) -> Result<(), Memory> {
    if !picture.knows_races {
        out.push_str("races not looked for\n")?;
        return Ok(());
    }
    match picture.races.len() {
        0 => out.push_str("no race\n")?,
        1 => out.push_str("1 race\n")?,
        count => write!(out, "{count} races\n")?,
    }
    Ok(())
}

fn put_steps(alloc: Global, out: &mut String, picture: &Picture) -> Result<(), Memory> {
    let mut widest = 8_usize;
    for column in picture.columns.as_slice() {
        widest = widest.max(length_of(alloc, column)?);
    }
    let width = widest.saturating_add(2);
    put_head(out, picture, width)?;
    for column in picture.columns.as_slice() {
        put_step(out, picture, column, width)?;
    }
    Ok(())
}

// How long the words of a column are.
fn length_of(alloc: Global, column: &Column) -> Result<usize, Memory> {
    let mut words = String::new(alloc);
    put_words(&mut words, column)?;
    Ok(words.len())
}

// A line with the names of the workers.
fn put_head(out: &mut String, picture: &Picture, width: usize) -> Result<(), Memory> {
    out.push_str("choice")?;
    let mut gap = 2_usize;
    for hand in picture.hands.as_slice() {
        put_spaces(out, gap)?;
        out.push_str(hand.name.as_str())?;
        gap = width.saturating_sub(hand.name.len());
    }
    out.push_str("\n")?;
    Ok(())
}

fn put_step(
    out: &mut String,
    picture: &Picture,
    column: &Column,
    width: usize,
) -> Result<(), Memory> {
    put_number(out, column.first, picture.is_racing(column))?;
    for _ in 1..column.choice.worker {
        put_spaces(out, width)?;
    }
    put_words(out, column)?;
    out.push_str("\n")?;
    Ok(())
}

/// Writes the number of a choice or of a line of the text, with a mark behind it where it races.
pub(crate) fn put_number(out: &mut String, number: u64, is_racing: bool) -> Result<(), Memory> {
    let mark = if is_racing { "! " } else { "  " };
    write!(out, "{number:>6}{mark}")?;
    Ok(())
}

fn put_spaces(out: &mut String, count: usize) -> Result<(), Memory> {
    for _ in 0..count {
        out.push_str(" ")?;
    }
    Ok(())
}

/// Writes what a column is: the instance, its line, and what it did.
pub(crate) fn put_words(out: &mut String, column: &Column) -> Result<(), Memory> {
    let instance = column.instance.as_str();
    let caption = column.caption.as_str();
    let line = column.line;
    let count = column.count;
    match column.choice.act {
        Act::Pop => write!(out, "{caption} {instance}")?,
        Act::Steal(victim) => write!(out, "{caption} {instance} from {victim}")?,
        Act::Step if line == 0 => write!(out, "{instance} {caption}")?,
        Act::Step if count == 1 => write!(out, "{instance} line {line} {caption}")?,
        Act::Step => write!(
            out,
            "{instance} line {line} and on, {count} steps of its own"
        )?,
    }
    Ok(())
}

fn put_ribbons(out: &mut String, picture: &Picture) -> Result<(), Memory> {
    for ribbon in picture.globals.as_slice() {
        put_ribbon(out, picture, ribbon)?;
    }
    Ok(())
}

// The values of a variable, or of a lock.
fn put_ribbon(out: &mut String, picture: &Picture, ribbon: &Ribbon) -> Result<(), Memory> {
    out.push_str(ribbon.name.as_str())?;
    out.push_str(":")?;
    for patch in ribbon.patches.as_slice() {
        put_begin(out, picture, patch.from)?;
        out.push_str(" ")?;
        out.push_str(patch.text.as_str())?;
    }
    out.push_str("\n")?;
    Ok(())
}

// From which choice on a value is there, where it is not from the beginning of the picture on.
fn put_begin(out: &mut String, picture: &Picture, behind: usize) -> Result<(), Memory> {
    let Some(place) = behind.checked_sub(1) else {
        return Ok(());
    };
    match picture.columns.get(place) {
        None => Ok(()),
        Some(column) => {
            let choice = column.first;
            write!(out, ", from choice {choice}")?;
            Ok(())
        }
    }
}

/// Writes a line for each race of a picture.
pub(crate) fn put_races(out: &mut String, picture: &Picture) -> Result<(), Memory> {
    for race in picture.races.as_slice() {
        put_race(out, race)?;
        out.push_str("\n")?;
    }
    Ok(())
}

/// Writes what races.
pub(crate) fn put_race(out: &mut String, race: &Race) -> Result<(), Memory> {
    let variable = race.variable.as_str();
    let first = race.first;
    let second = race.second;
    write!(out, "race on {variable}: choices {first} and {second}")?;
    Ok(())
}

fn put_footer(out: &mut String, picture: &Picture) -> Result<(), Memory> {
    let footer = &picture.footer;
    put_ending(out, footer)?;
    out.push_str("\n")?;
    out.push_str(footer.standing.as_str())?;
    out.push_str(footer.tree.as_str())?;
    let mut number = 0_u32;
    for line in footer.text.as_str().lines() {
        number = number.saturating_add(1);
        put_code(out, picture, number, line)?;
        out.push_str("\n")?;
    }
    Ok(())
}

/// Writes a line of the text, with its number.
pub(crate) fn put_code(
    out: &mut String,
    picture: &Picture,
    number: u32,
    line: &str,
) -> Result<(), Memory> {
    put_number(out, u64::from(number), picture.has_race_on(number))?;
    out.push_str(line)?;
    Ok(())
}

/// Writes how the program stands at the end of the picture.
pub(crate) fn put_ending(out: &mut String, footer: &Footer) -> Result<(), Memory> {
    let end = footer.end;
    write!(out, "behind choice {end}: ")?;
    out.push_str(footer.ending.as_str())?;
    Ok(())
}
