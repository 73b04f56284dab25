//! What accesses of one bucket that follow one another may have in common, so that they are passed over together.

/// What it is.
#[derive(Clone, Copy)]
pub enum Streak {
    /// They are by the thread of one instance.
    Thread,
    /// They are with the same locks.
    Locks,
}
