//! Targets over slots: a place that is written to, and how its old value is joined with the new one.

use crate::slot_place::SlotPlace;
use cilk_model::BinOp;

/// What is written to, and the operator before the `=`, if there is one (C 1990, 6.3.16).
#[derive(Drop)]
pub struct Target {
    pub op: Option<BinOp>,
    pub place: SlotPlace,
}
