//! Text literals of the tree, by what they say.

ghost use Rattle.std.specs.Prelude.{◌≡◌, string_bytes};

use std::marker::Model;

/// What a text literal says, and the place of its opening quote, counted in bytes from 0 (C 1990, 6.1.4).
#[derive(Drop)]
pub struct Literal {
    text: String,
    place: u32,
}

impl Model for Literal {
    ghost use Rattle.std.specs.Prelude.{string_bytes};
    ghost use Rattle.cilk_tree_syntax.specs.Tree as tree;

    ghost Value = { tree.Literal };

    ghost view = { λ l. record { bytes = string_bytes l.text; place = l.place } };
}

impl Literal {
    pub fn new(text: String, at: u32) -> Literal
        ensures { result ≡ record { bytes = string_bytes text; place = at } }
    {
        Literal { text, place: at }
    }

    pub fn as_str(&self) -> &str
        ensures { result.now ≡ self.now.bytes }
    {
        self.text.as_str()
    }

    /// The place of the opening quote in the source text.
    pub fn at(&self) -> u32
        ensures { result ≡ self.now.place }
    {
        self.place
    }
}
