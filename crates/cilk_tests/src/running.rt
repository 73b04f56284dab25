//! Frames, hands, instances and schedules of more workers than one, and readers and writers that break: what the program does not show.

mod frames;
mod hands;
mod instances;
mod schedules;
mod streams;
mod undone;

use crate::equal::equal;
use cilk_commands::ready_of;
use cilk_machine::Loaded;
use std::alloc::Global;
use std::process::Abort;

// The program of a text.
fn program(rt: &impl Abort, alloc: Global, text: &str) -> Loaded {
    ready_of(alloc, text.as_bytes()).expect(rt, "a program")
}

fn is_text(rt: &impl Abort, text: &[u8], wanted: &str) {
    equal(rt, text, wanted.as_bytes());
}

fn is_word(rt: &impl Abort, word: &str, wanted: &str) {
    equal(rt, word, wanted);
}
