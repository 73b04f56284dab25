//! A machine that goes to logs that were found, so that it can be compared where they lead.

use crate::walker::Walker;

/// A machine, and behind which log it stands.
#[derive(Drop)]
pub(crate) struct Probe {
    pub walker: Walker,
    /// The number of that log.
    pub number: usize,
}
