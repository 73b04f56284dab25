//! What a tree was, as plain data.

use crate::tree::Tree;
use std::marker::Model;

/// What a tree was, from which trees are made again. It shares no frame with the tree, and nobody goes on with what it keeps.
#[derive(Drop)]
pub struct TreeImage {
    pub(crate) tree: Tree,
}

impl Model for TreeImage {
    ghost use Rattle.cilk_spawn.specs.Family.{Family};

    ghost Value = { Family };

    ghost view = { λ i. i.tree };
}
