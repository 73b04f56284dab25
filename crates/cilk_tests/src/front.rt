//! Tokens, trees and values: what the program does not show.

mod same;
mod tokens;
mod values;

use cilk_parse::read;
use cilk_tree_syntax::Program;
use std::alloc::Global;
use std::process::Abort;

fn program(rt: &impl Abort, alloc: Global, text: &str) -> Program {
    read(alloc, text).expect(rt, text)
}
