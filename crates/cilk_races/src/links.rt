//! Accesses of a run, linked where their cells have one hash: those of one cell, and few others, are met by going from each to the next one.

ghost use Rattle.std.specs.Prelude.{◌≡◌, length, IfOk, replicate, if◌then◌else◌};
ghost use Rattle.cilk_races.specs.declared.streak.Streak.TheVariants.{Thread, Locks};
ghost use Rattle.cilk_races.specs.Links.{AreLeftOut, AreLinked, ArePast};
ghost use Rattle.cilk_races.specs.Paired.{touches_of};

use crate::hashing::hash_of;
use crate::left_out::left_out;
use crate::rows::Rows;
use crate::streak::Streak;
use crate::streaks::streaks_of;
use crate::touch::Touch;
use cilk_log_replay::Memory;
use std::alloc::Global;

/// As many buckets as there are accesses, each of which begins at the first access whose hash falls into it and that is not left out.
#[derive(Drop)]
pub struct Links {
    /// Where each bucket begins, or the number of accesses.
    pub first: Vec<usize>,
    /// Which access is the next one of a bucket behind each, or their number.
    pub next: Vec<usize>,
    /// Which one is the next by another thread.
    pub threads: Vec<usize>,
    /// Which one is the next with other locks.
    pub locks: Vec<usize>,
}

impl Links {
    /// Those of these accesses.
    pub fn new(alloc: Global, rows: &Rows, touches: &[Touch]) -> Result<Links, Memory>
        ensures first { IfOk result (λ links. length links.first.items ≡ length touches.now) }
        ensures next { IfOk result (λ links. length links.next.items ≡ length touches.now) }
        ensures threads { IfOk result (λ links. length links.threads.items ≡ length touches.now) }
        ensures locks { IfOk result (λ links. length links.locks.items ≡ length touches.now) }
        ensures linked { IfOk result (λ links. AreLinked (length touches.now) (touches_of rows.now touches.now) 0 links.first.items links.next.items) }
        ensures by_thread { IfOk result (λ links. ArePast Thread (length touches.now) (touches_of rows.now touches.now) 0 links.threads.items) }
        ensures by_locks { IfOk result (λ links. ArePast Locks (length touches.now) (touches_of rows.now touches.now) 0 links.locks.items) }
    {
        let left = left_out(alloc, rows, touches)?;
        let count = touches.len();
        let mut first = vec![in alloc; count; count]?;
        let mut next = vec![in alloc; count; count]?;
        link(
            rows,
            touches,
            left.as_slice(),
            first.as_mut_slice(),
            next.as_mut_slice(),
        );
        let threads = streaks_of(alloc, Streak::Thread, touches, next.as_slice())?;
        let locks = streaks_of(alloc, Streak::Locks, touches, next.as_slice())?;
        Ok(Links {
            first,
            next,
            threads,
            locks,
        })
    }
}

// Goes through the accesses from the last one on.
fn link(rows: &Rows, touches: &[Touch], left: &[bool], first: &mut [usize], next: &mut [usize])
    requires size { length left.now ≡ length touches.now }
    requires left { AreLeftOut (length touches.now) (touches_of rows.now touches.now) left.now }
    requires first { first.old ≡ replicate (length touches.now) (length touches.now) }
    requires next { length next.old ≡ length touches.now }
    ensures { AreLinked (length touches.now) (touches_of rows.now touches.now) 0 first.new next.new }
{
    let mut place = touches.len();
    while 0 < place {
        place -= 1;
        let bucket = hash_of(rows, &touches[place]) % touches.len();
        next[place] = first[bucket];
        first[bucket] = begun(left[place], place, first[bucket]);
    }
}

// Where a bucket begins that began at `first`, with one access more before it.
fn begun(left_out: bool, place: usize, first: usize) -> usize
    ensures { result ≡ (if left_out then first else place) }
{
    if left_out { first } else { place }
}
