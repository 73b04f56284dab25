//! Names of the tree, each with its place in the text.

ghost use Rattle.std.specs.Prelude.{◌≡◌, string_bytes};

use std::marker::Model;

/// A name of the source text, and the place of its first byte, counted in bytes from 0.
pub struct Word {
    text: String,
    place: u32,
}

// To drop it elsewhere is to call this, and its parts' drops are proved here alone.
impl Drop for Word {
    fn drop(self) {
        let Word {
            text: _text,
            place: _,
        } = self;
    }
}

impl Model for Word {
    ghost use Rattle.std.specs.Prelude.{string_bytes};
    ghost use Rattle.cilk_tree_syntax.specs.Tree as tree;

    ghost Value = { tree.Word };

    ghost view = { λ w. record { text = string_bytes w.text; place = w.place } };
}

impl Word {
    pub fn new(text: String, at: u32) -> Word
        ensures { result ≡ record { text = string_bytes text; place = at } }
    {
        Word { text, place: at }
    }

    pub fn as_str(&self) -> &str
        ensures { result.now ≡ self.now.text }
    {
        self.text.as_str()
    }

    /// The place of the first byte in the source text.
    pub fn at(&self) -> u32
        ensures { result ≡ self.now.place }
    {
        self.place
    }
}
