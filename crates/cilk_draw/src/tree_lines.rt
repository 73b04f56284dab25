//! The instances that were made, a line for each, as far as a picture has room for them.

use crate::standing::no_room;
use cilk_log_replay::{Machine, Memory, Portion, ViewFault, What};
use std::alloc::Global;
use std::str::from_utf8;

// So many instances have a line.
const MOST: usize = 400;

/// The first lines of the view `tree`, and a line of dots where there are more.
pub(crate) fn tree_of(alloc: Global, machine: &Machine) -> Result<String, Memory> {
    let mut telling = match machine.view_told(&What::Tree) {
        Ok(telling) => telling,
        Err(ViewFault::Memory(memory)) => return Err(memory),
        Err(ViewFault::NoInstance) => return Err(no_room()),
    };
    let mut portion = Portion::new(alloc)?;
    telling.put_next(&mut portion);
    drop(telling);
    match from_utf8(portion.as_slice()) {
        Err(_) => Err(no_room()),
        Ok(text) => first_lines(alloc, text),
    }
}

// The first whole lines of a text.
fn first_lines(alloc: Global, text: &str) -> Result<String, Memory> {
    let mut out = String::new(alloc);
    let mut rest = text;
    for _ in 0..MOST {
        match rest.split_once('\n') {
            None => break,
            Some((line, others)) => {
                out.push_str(line)?;
                out.push_str("\n")?;
                rest = others;
            }
        }
    }
    if !rest.is_empty() {
        out.push_str("..\n")?;
    }
    Ok(out)
}
