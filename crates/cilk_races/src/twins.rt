//! Accesses of a run that are told as earlier ones are: what comes behind them meets those too, and as the same entries. One that is not found costs
//! time alone, so no clause says that all are.

ghost use Rattle.std.specs.Prelude.{◌≡◌, ◌<◌, true, false, List, length, slice_index_or, IfOk};
ghost use Rattle.cilk_races.specs.Line.{Line};
ghost use Rattle.cilk_races.specs.Links.{AreTwins, IsTwin};
ghost use Rattle.cilk_races.specs.Paired.{touches_of};

use crate::alike::are_twins;
use crate::touch::Touch;
use cilk_log_replay::{Memory, Spot};
use std::alloc::Global;

/// A mark for each access that is like an earlier one. They are looked up by a hash: the heads of its buckets, and the one before each, are counted
/// from 1.
pub(crate) fn twins_of(alloc: Global, touches: &[Touch]) -> Result<Vec<bool>, Memory>
    ensures size { IfOk result (λ twins. length twins.items ≡ length touches.now) }
    ensures twins { IfOk result (λ twins. (rows : List Line) → AreTwins (touches_of rows touches.now) twins.items) }
{
    let count = touches.len();
    let mut twins = vec![in alloc; false; count]?;
    let mut heads = vec![in alloc; 0; count]?;
    let mut earlier = vec![in alloc; 0; count]?;
    mark_twins(
        touches,
        twins.as_mut_slice(),
        heads.as_mut_slice(),
        earlier.as_mut_slice(),
    );
    Ok(twins)
}

fn mark_twins(touches: &[Touch], twins: &mut [bool], heads: &mut [usize], earlier: &mut [usize])
    requires size { length twins.old ≡ length touches.now }
    requires heads { length heads.old ≡ length touches.now }
    requires earlier { length earlier.old ≡ length touches.now }
    requires twins { (rows : List Line) → AreTwins (touches_of rows touches.now) twins.old }
    ensures { (rows : List Line) → AreTwins (touches_of rows touches.now) twins.new }
{
    for place in 0..touches.len() {
        let bucket = key_of(&touches[place]) % touches.len();
        if has_twin(touches, earlier, heads[bucket], place) {
            twins[place] = true;
        } else {
            earlier[place] = heads[bucket];
            heads[bucket] = place + 1;
        }
    }
}

// Whether one of those before it in its bucket is like it, of which the last is counted so from 1.
fn has_twin(touches: &[Touch], earlier: &[usize], last: usize, place: usize) -> bool
    requires there { place < length touches.now }
    requires size { length earlier.now ≡ length touches.now }
    ensures { result ≡ true → (rows : List Line) → IsTwin (touches_of rows touches.now) place }
{
    let mut left = last.min(place);
    while 0 < left {
        let before = left - 1;
        if are_twins(&touches[before], &touches[place]) {
            return true;
        }
        left = earlier[before].min(before);
    }
    false
}

// Of what twins have in common. Nothing depends on it but how long is looked for one.
fn key_of(touch: &Touch) -> usize {
    let step = mixed(mixed(0, touch.placed.place), touch.n as usize);
    let before = mixed(
        mixed(step, touch.placed.syncs as usize),
        touch.placed.children as usize,
    );
    let taken = mixed(before, touch.placed.taking.unwrap_or(0));
    let held = mixed(taken, touch.locks.len());
    mixed(
        spot_key(held, touch.access.at),
        usize::from(touch.access.writes),
    )
}

fn spot_key(hash: usize, at: Spot) -> usize {
    match at {
        Spot::Global { variable, index } => mixed(mixed(hash, variable), index as usize),
        Spot::Own { variable, index } => mixed(mixed(!hash, variable), index as usize),
        Spot::Output => hash,
        Spot::Synched => !hash,
    }
}

// An odd number of 64 bits that has many bits.
const FACTOR: usize = 0x9e37_79b9_7f4a_7c15;

fn mixed(hash: usize, number: usize) -> usize {
    (hash ^ number).wrapping_mul(FACTOR).rotate_left(29)
}
