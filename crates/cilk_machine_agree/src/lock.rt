//! What each lock of a program is at one moment of a run: unset, free, or held by an instance.

use cilk_spawn::Id;

/// A lock, whose holder goes by its id (Cilk 5.4 manual, locks).
#[derive(Clone, Copy, PartialEq, Eq)]
pub enum Lock {
    /// It was not initialised yet.
    Unset,
    Free,
    Held(Id),
}
