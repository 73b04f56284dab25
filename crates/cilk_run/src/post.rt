//! What workers take turns at, as their threads see it, and how a turn ends.

use cilk_run_locked::Known;
use std::sync::Wait;

/// What workers take turns at, one at a time. It is a trait, so that threads are proved without what their workers share.
pub trait Post {
    /// A worker takes a turn. `values` is memory of its own that is used again: what is in it before and behind a turn means nothing.
    fn turn<R: Wait>(&self, rt: &R, worker: u8, values: &mut Vec<Known>) -> TurnEnd;

    /// From now on each turn is the last of its worker.
    fn stop<R: Wait>(&self, rt: &R);
}

/// How far a worker came with its turn.
#[derive(Clone, Copy)]
pub enum Begun {
    /// To its end.
    Over(TurnEnd),
    /// It sees something of its step, which is of the action of this number, and evaluates that while others have their turns.
    Seen(u32),
}

/// How a worker goes on behind its turn.
#[derive(Clone, Copy)]
pub enum TurnEnd {
    /// A choice was made.
    Made,
    /// None was possible for this worker, as things stand.
    Idle,
    /// No turn will make a choice any more: the program has ended or is stuck, the limit is reached, memory ran out, or all were told to end.
    Stop,
}
