//! A hook before each turn, by which tests hold workers back.

/// What each worker is told of before it takes a turn, while it does not hold the lock.
pub trait Gate {
    /// A worker is about to take the turn of this number: the first has number 1, and one in which it made no choice comes again.
    fn before(&self, worker: u8, turn: u64);
}

/// Holds nobody.
#[derive(Clone, Copy)]
pub struct Open;

impl Gate for Open {
    #[inline(always)]
    fn before(&self, _worker: u8, _turn: u64) {}
}
