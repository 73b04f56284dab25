//! What lived in a tree, as plain data.

use crate::record::Record;
use cilk_frame::Id;
use std::marker::Model;

/// What lived in a tree, and how many instances were ever made, from which the tree is made again beside a later one. It takes no
/// memory for what had ended, and shares no frame with the tree.
#[derive(Drop)]
pub struct LivingImage {
    /// How many instances were ever made.
    pub(crate) count: usize,
    pub(crate) ids: Vec<Id>,
    /// Their records, in the same order.
    pub(crate) records: Vec<Record>,
}

impl Model for LivingImage {
    ghost use Rattle.cilk_spawn.specs.Living.{Living};
    ghost use Rattle.cilk_spawn.specs.LivingRecords.{AreLiving};
    ghost use Rattle.cilk_spawn.specs.Records.{nodes_of};

    ghost Value = { Living };

    ghost view = { λ i. record { count = i.count; ids = i.ids.items; nodes = nodes_of i.records.items } };

    ghost invariant = { λ i. AreLiving i.records.items i.ids.items };
}
