//! What stands below the rows of a picture: its races, how the program stands at its end, the tree of spawns, and the text.

use crate::elements::put_text;
use crate::picture::Picture;
use crate::wording::{put_code, put_ending, put_races};
use cilk_log_replay::Memory;
use std::alloc::Global;

// A line of text.
const LINE: u64 = 16;

// Where lines begin.
const LEFT: u64 = 20;

// The width of a letter, in tenths.
const TENTHS: u64 = 67;

// How far a child stands to the right of its parent.
const STEP: u64 = 14;

/// How far what stands below reaches to the right and downwards, where it begins at this height.
#[derive(Clone, Copy)]
pub(crate) struct Reach {
    pub right: u64,
    pub bottom: u64,
}

impl Reach {
    // With one line more, which begins there.
    fn with_line(self, left: u64, line: &str) -> Reach {
        Reach {
            right: self.right.max(end_of(left, line)),
            bottom: self.bottom.saturating_add(LINE),
        }
    }
}

/// Writes it, and tells how far it reaches.
pub(crate) fn put_below(
    alloc: Global,
    out: &mut String,
    picture: &Picture,
    top: u64,
) -> Result<Reach, Memory> {
    let head = head_of(alloc, picture)?;
    let y = top.saturating_add(LINE);
    let standing = put_column(out, head.as_str(), LEFT, y)?;
    let y = standing.bottom.saturating_add(LINE);
    let tree = put_tree(out, picture.footer.tree.as_str(), y)?;
    let left = tree.right.max(standing.right).saturating_add(40);
    let text = put_program(alloc, out, picture, left, y)?;
    Ok(Reach {
        right: text.right,
        bottom: text.bottom.max(tree.bottom),
    })
}

// The races, how the program stands, and each worker.
fn head_of(alloc: Global, picture: &Picture) -> Result<String, Memory> {
    let mut head = String::new(alloc);
    put_races(&mut head, picture)?;
    put_ending(&mut head, &picture.footer)?;
    head.push_str("\n")?;
    head.push_str(picture.footer.standing.as_str())?;
    Ok(head)
}

// The right end of a text that begins there.
fn end_of(left: u64, text: &str) -> u64 {
    let width = (text.len() as u64).saturating_mul(TENTHS) / 10;
    left.saturating_add(width).saturating_add(4)
}

// Lines one below another, the first on the line of that height.
fn put_column(out: &mut String, lines: &str, left: u64, top: u64) -> Result<Reach, Memory> {
    let mut reach = Reach {
        right: left,
        bottom: top,
    };
    for line in lines.lines() {
        put_text(out, left, reach.bottom, "word", line)?;
        reach = reach.with_line(left, line);
    }
    out.push_str("\n")?;
    Ok(reach)
}

// The instances, each to the right of its parent.
fn put_tree(out: &mut String, lines: &str, top: u64) -> Result<Reach, Memory> {
    let mut reach = Reach {
        right: LEFT,
        bottom: top,
    };
    for line in lines.lines() {
        let left = LEFT.saturating_add(depth_of(line).saturating_mul(STEP));
        put_text(out, left, reach.bottom, "word", line)?;
        reach = reach.with_line(left, line);
    }
    out.push_str("\n")?;
    Ok(reach)
}

// How many numbers the path has that a line begins with.
fn depth_of(line: &str) -> u64 {
    let path = match line.split_once(' ') {
        None => line,
        Some((path, _)) => path,
    };
    if path.len() < 2 {
        return 0;
    }
    let mut depth = 0_u64;
    for byte in path.bytes() {
        if byte == b'/' {
            depth = depth.saturating_add(1);
        }
    }
    depth
}

// The text of the program, with the numbers of its lines. Those that race are marked.
fn put_program(
    alloc: Global,
    out: &mut String,
    picture: &Picture,
    left: u64,
    top: u64,
) -> Result<Reach, Memory> {
    let mut reach = Reach {
        right: left,
        bottom: top,
    };
    let mut number = 0_u32;
    for line in picture.footer.text.as_str().lines() {
        number = number.saturating_add(1);
        let mut code = String::new(alloc);
        put_code(&mut code, picture, number, line)?;
        put_text(
            out,
            left,
            reach.bottom,
            class_of(picture, number),
            code.as_str(),
        )?;
        reach = reach.with_line(left, code.as_str());
    }
    out.push_str("\n")?;
    Ok(reach)
}

fn class_of(picture: &Picture, number: u32) -> &'static str {
    if picture.has_race_on(number) {
        "alarm"
    } else {
        "word"
    }
}
