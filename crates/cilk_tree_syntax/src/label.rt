//! Labels of the tree: what a `switch` compares its value with.

use std::marker::Model;

/// A label in the body of a `switch`: the value of a `case`, or none for `default`, and the place of that word (C 1990, 6.6.1).
#[derive(Clone, Copy)]
pub struct Label {
    pub at: u32,
    pub value: Option<i32>,
}

impl Model for Label {
    ghost use Rattle.cilk_tree_syntax.specs.Tree as tree;

    ghost Value = { tree.Label };

    ghost view = { λ l. record { at = l.at; value = l.value } };

    ghost inverse = { λ l. record { at = l.at; value = l.value } };
}
