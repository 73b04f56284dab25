//! One choice of a schedule: a worker, and what it does.

use crate::act::Act;

/// What happens next, where several workers could go on.
#[derive(Clone, Copy, Debug, PartialEq, Eq)]
pub struct Choice {
    /// The worker, counted from 1.
    pub worker: u8,
    pub act: Act,
}
