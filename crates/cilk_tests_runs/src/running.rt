//! Runs by more workers than one, and steps that they take by glimpses.

mod glimpses;
mod workers;

use cilk_commands::ready_of;
use cilk_run::Loaded;
use std::alloc::Global;
use std::process::Abort;

// The program of a text.
fn program(rt: &impl Abort, alloc: Global, text: &str) -> Loaded {
    ready_of(alloc, text.as_bytes()).expect(rt, "a program")
}
