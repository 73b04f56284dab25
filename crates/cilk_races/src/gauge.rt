//! A machine that makes the choices of a schedule again, with what is kept of them.

ghost use Rattle.std.specs.Prelude.{◌≡◌, ◌<◌, suc, IfOk, IfErr, OnOk, length, map, option_copied, slice_get};
ghost use Rattle.cilk_log_replay.specs.machine.sched.Words.{choice_of};
ghost use Rattle.cilk_log_replay.specs.Tape.{Tape, IsAt};
ghost use Rattle.cilk_log_replay.specs.ReplayFaults.{IsFaultOf};
ghost use Rattle.cilk_races.specs.Gauged.{Advances};
ghost use Rattle.cilk_races.specs.Seats.{longest_in, no_counts, shares_in, told};
ghost use Rattle.cilk_races.specs.Tallies.{first};
ghost use Rattle.cilk_races.specs.Words.{numbers_of};

use crate::counts::Counts;
use crate::measure::Measure;
use crate::seat::Seat;
use crate::tally::Tally;
use cilk_log_replay::{Choice, Machine, Memory, ReplayFault, make_again};
use std::alloc::Global;

/// A machine, and what is kept of the choices that led to it.
#[derive(Drop)]
pub(crate) struct Gauge {
    pub machine: Machine,
    pub tally: Tally,
    pub counts: Counts,
}

impl Gauge {
    /// Before any choice of a machine.
    pub(crate) fn new(alloc: Global, machine: Machine, workers: u8) -> Result<Gauge, ReplayFault>
        ensures machine { IfOk result (λ g. g.machine ≡ machine) }
        ensures tally { IfOk result (λ g. g.tally ≡ first) }
        ensures counts { IfOk result (λ g. g.counts ≡ no_counts workers) }
        ensures memory { IfErr result (λ why. why ≡ ReplayFault.Memory) }
    {
        match Tally::new(alloc) {
            Err(_) => {
                drop(machine);
                Err(ReplayFault::Memory)
            }
            Ok(tally) => match Counts::new(alloc, workers) {
                Err(_) => {
                    drop(machine);
                    drop(tally);
                    Err(ReplayFault::Memory)
                }
                Ok(counts) => Ok(Gauge {
                    machine,
                    tally,
                    counts,
                }),
            },
        }
    }

    /// The choice of this number, counted from 0, is made again behind those before it, and noted.
    pub(crate) fn advance(&mut self, choices: &[Choice], made: usize) -> Result<(), ReplayFault>
        requires made { self.old.machine.choices ≡ made }
        requires room { made < length choices.now }
        ensures next { OnOk result ((t : Tape) → t.choices ≡ map choice_of choices.now
            → IsAt t made self.old.machine → IsAt t (suc made) self.new.machine) }
        ensures made { OnOk result (self.new.machine.choices ≡ suc made) }
        ensures noted { OnOk result ((t : Tape) → t.choices ≡ map choice_of choices.now
            → IsAt t made self.old.machine → Advances t choices.now made self.old self.new) }
        ensures told { IfErr result (λ why. (t : Tape) → t.choices ≡ map choice_of choices.now → IsAt t made self.old.machine → IsFaultOf t why) }
    {
        match make_again(&mut self.machine, choices, made) {
            Err(fault) => Err(fault),
            Ok(did) => match chosen(choices, made) {
                None => unreachable!(),
                Some(choice) => {
                    self.counts.note(choice, &did);
                    match self.tally.note(&self.machine, &did) {
                        Err(_) => Err(ReplayFault::Memory),
                        Ok(()) => Ok(()),
                    }
                }
            },
        }
    }

    /// The numbers that are told of the choices so far.
    pub(crate) fn measure(&self, alloc: Global) -> Result<Measure, Memory>
        ensures { IfOk result (λ m. numbers_of m ≡ told self.now.tally self.now.counts) }
    {
        let shares = shares_of(alloc, self.counts.seats.as_slice())?;
        Ok(Measure {
            work: self.counts.work,
            span: self.tally.span(),
            instances: self.tally.instances(),
            live: self.tally.live(),
            depth: self.tally.depth(),
            bodies: self.tally.bodies(),
            deque: longest_of(self.counts.seats.as_slice()),
            steals: self.counts.steals,
            pops: self.counts.pops,
            parks: self.counts.parks,
            shares,
        })
    }
}

fn chosen(choices: &[Choice], k: usize) -> Option<&Choice>
    ensures { option_copied result ≡ slice_get choices.now k }
{
    choices.get(k)
}

// The work of each worker.
fn shares_of(alloc: Global, seats: &[Seat]) -> Result<Vec<u64>, Memory>
    ensures { IfOk result (λ shares. shares.items ≡ shares_in seats.now) }
{
    let mut shares = Vec::new(alloc);
    for seat in seats {
        shares.push(seat.share)?;
    }
    Ok(shares)
}

// The greatest number of frames that were in one deque.
fn longest_of(seats: &[Seat]) -> u64
    ensures { result ≡ longest_in seats.now }
{
    let mut longest = 0;
    for seat in seats {
        longest = seat.longest.max(longest);
    }
    longest
}
