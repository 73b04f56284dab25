//! What a machine was between two choices, as plain data.

use cilk_machine_undo::{Id, PartsImage};
use cilk_sched::Outcome;
use std::marker::Model;

/// What a machine was between two choices, from which machines of the same program are made. It takes memory for each instance that was
/// ever made and for each byte that was printed.
#[derive(Drop)]
pub struct MachineImage {
    pub(crate) parts: PartsImage,
    pub(crate) workers: u8,
    pub(crate) outcome: Outcome,
    /// The instance that was trapped, which contracts alone read.
    pub(crate) trapper: Id,
    pub(crate) choices: u64,
}

impl Model for MachineImage {
    ghost use Rattle.std.specs.Prelude.{◌≡◌, length};
    ghost use Rattle.cilk_machine.specs.Checkpoints.{Image};

    ghost Value = { Image };

    ghost view = { λ k. record { machine = k.parts; outcome = k.outcome; trapper = k.trapper; choices = k.choices } };

    ghost invariant = { λ k. k.workers ≡ length k.parts.places };
}
