//! Moves of a player: to the place behind the first so many choices, whole or not at all.

ghost use Rattle.std.specs.Prelude.{◌≡◌, ◌≤◌, ◌+◌, ◌/◌, ◌%◌, IfOk, OnErr, OnOk, length};
ghost use Rattle.cilk_log_replay.specs.Playing.{is_back, is_on, played_to, way};

use super::Player;
use crate::going::go_along;
use crate::track::EACH;
use cilk_machine::Memory;
use std::mem::swap;

// Whether no checkpoint lies between, on the way on.
fn is_on(place: usize, k: usize) -> bool
    ensures { result ≡ is_on place k }
{
    place <= k && k - k % EACH <= place
}

// Whether none lies between on the way back, and of each choice there is a record.
fn is_back(records: usize, place: usize, k: usize) -> bool
    ensures { result ≡ is_back records place k }
{
    k < place && place - (k - k % EACH) < EACH && place - k <= records
}

// How many choices the way is long.
fn cost_of(records: usize, place: usize, k: usize) -> u64
    ensures cost { result ≡ (way records place k).cost }
    ensures short { result ≤ 999 }
{
    if is_on(place, k) {
        (k - place) as u64
    } else if is_back(records, place, k) {
        (place - k) as u64
    } else {
        (k % EACH) as u64
    }
}

impl Player {
    /// Stands behind the first k choices, and tells what the way costs, which goes by the positions: the choices between where no checkpoint lies
    /// between and there are records, and else those behind the checkpoint before. The spare may make others, but never more than 999. Where memory
    /// has run out, it stands where it stood.
    pub fn stand_at(&mut self, k: usize) -> Result<u64, Memory>
        requires { k ≤ length self.old.tape.choices }
        ensures there { OnOk result (self.new ≡ played_to self.old k) }
        ensures cost { IfOk result (λ cost. cost ≡ (way self.old.kept self.old.place k).cost) }
        ensures short { IfOk result (λ cost. cost ≤ 999) }
        ensures same { OnErr result (self.new ≡ record self.old { kept = self.new.kept }) }
    {
        let cost = cost_of(self.machine.records(), self.place(), k);
        match self.reach(k) {
            Err(memory) => Err(memory),
            Ok(()) => Ok(cost),
        }
    }

    // One choice is made or taken back in place, whole or not at all. Several may fail half the way, so the other machine makes them.
    fn reach(&mut self, k: usize) -> Result<(), Memory>
        requires { k ≤ length self.old.tape.choices }
        ensures there { OnOk result (self.new ≡ record self.old { place = k; kept = k % 1000 }) }
        ensures same { OnErr result (self.new ≡ self.old) }
    {
        let place = self.machine.choices() as usize;
        if place.abs_diff(k) <= 1 && place / EACH == k / EACH {
            self.go_one(k)
        } else {
            self.go_beside(k)
        }
    }

    // To the next place, or the one before, or to this one, where no checkpoint lies between.
    fn go_one(&mut self, k: usize) -> Result<(), Memory>
        requires within { k ≤ length self.old.tape.choices }
        requires on { k ≤ self.old.place + 1 }
        requires back { self.old.place ≤ k + 1 }
        requires home { self.old.place / 1000 ≡ k / 1000 }
        ensures there { OnOk result (self.new ≡ record self.old { place = k; kept = k % 1000 }) }
        ensures same { OnErr result (self.new ≡ self.old) }
    {
        go_along(&mut self.machine, self.log.choices.as_slice(), k)
    }

    // The other machine goes there, from where it stands if no checkpoint lies between and it has its records, and takes the place of this one, which stays
    // where it is if memory runs out.
    fn go_beside(&mut self, k: usize) -> Result<(), Memory>
        requires { k ≤ length self.old.tape.choices }
        ensures there { OnOk result (self.new ≡ record self.old { place = k; kept = k % 1000 }) }
        ensures same { OnErr result (self.new ≡ self.old) }
    {
        let from = self.spare.choices() as usize;
        if from / EACH != k / EACH || self.spare.records() != from % EACH {
            return self.start_over(k);
        }
        match go_along(&mut self.spare, self.log.choices.as_slice(), k) {
            Err(memory) => Err(memory),
            Ok(()) => {
                swap(&mut self.spare, &mut self.machine);
                Ok(())
            }
        }
    }

    // The same from the checkpoint before.
    fn start_over(&mut self, k: usize) -> Result<(), Memory>
        requires { k ≤ length self.old.tape.choices }
        ensures there { OnOk result (self.new ≡ record self.old { place = k; kept = k % 1000 }) }
        ensures same { OnErr result (self.new ≡ self.old) }
    {
        match self.track.checkpoints.get(k / EACH) {
            None => unreachable!(),
            Some(checkpoint) => match self.spare.return_to(checkpoint, &self.track.last) {
                Err(memory) => Err(memory),
                Ok(()) => match go_along(&mut self.spare, self.log.choices.as_slice(), k) {
                    Err(memory) => Err(memory),
                    Ok(()) => {
                        swap(&mut self.spare, &mut self.machine);
                        Ok(())
                    }
                },
            },
        }
    }
}
