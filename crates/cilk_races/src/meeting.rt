//! Two accesses of a run that meet, as they are told.

use crate::pairing::Pair;
use crate::reversal::Reversal;

/// Two accesses, and a schedule that takes them in the other order, where one was found.
#[derive(Drop)]
pub(crate) struct Meeting {
    pub pair: Pair,
    pub reversal: Option<Reversal>,
}
