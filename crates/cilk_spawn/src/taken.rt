//! A delivery that was taken, with what its child was before.

use crate::delivery::Delivery;
use crate::fate::Fate;
use cilk_frame::Id;

/// A delivery that waited longest for an instance, and was taken.
#[derive(Drop)]
pub struct Taken {
    /// Who took it.
    pub id: Id,
    pub delivery: Delivery,
    /// What had become of its child.
    pub fate: Fate,
}
