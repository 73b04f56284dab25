//! How many choices were work, steals, pops and parks, and what each worker did.

ghost use Rattle.std.specs.Prelude.{◌≡◌, IfOk};
ghost use Rattle.cilk_races.specs.Seats.{counts_after, no_counts, step_after};

use crate::cell::next;
use crate::seat::{NO_SEAT, Seat, draw, work};
use cilk_log_replay::{Act, Choice, Did, Memory};
use std::alloc::Global;
use std::marker::Model;

/// The choices so far, counted.
#[derive(Drop)]
pub(crate) struct Counts {
    pub work: u64,
    pub steals: u64,
    pub pops: u64,
    pub parks: u64,
    /// Of each worker, from worker 1 on.
    pub seats: Vec<Seat>,
}

impl Model for Counts {
    ghost use Rattle.cilk_races.specs.Seats as words;

    ghost Value = { words.Counts };

    ghost view = { λ c. record { work = c.work; steals = c.steals; pops = c.pops; parks = c.parks; seats = c.seats.items } };
}

impl Counts {
    /// Before any choice of so many workers.
    pub(crate) fn new(alloc: Global, workers: u8) -> Result<Counts, Memory>
        ensures { IfOk result (λ c. c ≡ no_counts workers) }
    {
        let seats = vec![in alloc; NO_SEAT; usize::from(workers)]?;
        Ok(Counts {
            work: 0,
            steals: 0,
            pops: 0,
            parks: 0,
            seats,
        })
    }

    /// Counts a choice, which did this.
    pub(crate) fn note(&mut self, choice: &Choice, did: &Did)
        ensures { self.new ≡ counts_after choice.now did.now self.old }
    {
        match choice.act {
            Act::Step => self.step(choice.worker, did),
            Act::Pop => {
                self.pops = next(self.pops);
                draw(&mut self.seats, choice.worker);
            }
            Act::Steal(victim) => {
                self.steals = next(self.steals);
                draw(&mut self.seats, victim);
            }
        }
    }

    // A step: work, or a frame was parked.
    fn step(&mut self, worker: u8, did: &Did)
        ensures { self.new ≡ step_after worker did.now self.old }
    {
        if matches!(did, Did::Moved) {
            self.parks = next(self.parks);
        } else {
            self.work = next(self.work);
            let spawned = matches!(did, Did::Spawned(_, _));
            work(&mut self.seats, worker, spawned);
        }
    }
}
