//! What a machine lends to those that make the texts of views.

use cilk_load::Loaded;
use cilk_machine_agree::{Hands, Lock, Tree};

/// The parts of a machine that views show.
#[derive(Clone, Copy)]
pub struct Shown<'a> {
    pub loaded: &'a Loaded,
    /// The cells of the variables of the top level, one variable after another.
    pub globals: &'a [i32],
    pub locks: &'a [Lock],
    /// What was printed.
    pub output: &'a [u8],
    pub tree: &'a Tree,
    pub hands: &'a Hands,
    /// How many workers there are.
    pub workers: u8,
}
