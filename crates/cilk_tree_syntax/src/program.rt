//! The whole tree of a program.

use crate::item::Item;
use cilk_lex_tokens::Header;
use std::marker::Model;

/// A program: the headers that it includes and its items, in order, and the length of its source text in bytes.
pub struct Program {
    pub headers: Vec<Header>,
    pub items: Vec<Item>,
    pub length: u32,
}

// To drop it elsewhere is to call this, and its parts' drops are proved here alone.
impl Drop for Program {
    fn drop(self) {
        let Program {
            headers: _headers,
            items: _items,
            length: _,
        } = self;
    }
}

impl Model for Program {
    ghost use Rattle.cilk_tree_syntax.specs.Tree as tree;
    ghost use Rattle.cilk_tree_syntax.specs.ProgramCoding.{coded_Program};

    ghost Value = { tree.Program };

    ghost coded = { coded_Program };

    ghost view = { λ p. record { headers = p.headers.items; items = p.items.items; length = p.length } };
}
