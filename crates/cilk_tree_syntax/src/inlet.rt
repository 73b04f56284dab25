//! Inlets of the tree, with their parameters and bodies.

use crate::block::Block;
use crate::word::Word;

/// An inlet: the place of the word `inlet`, its name, its `int` parameters and its body (Cilk 5.4 manual, `inlet`).
#[cycle(stmt)]
#[derive(Drop)]
pub struct Inlet {
    pub at: u32,
    pub name: Word,
    pub parameters: Vec<Word>,
    pub body: Block,
}
