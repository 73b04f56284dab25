//! The choices of a schedule, drawn one by one.

ghost use Rattle.std.specs.Prelude.{◌≡◌, IfOk, IfSome, option_map};
ghost use Rattle.cilk_run.specs.labelled.Bodies.{label};
ghost use Rattle.cilk_run.specs.machine.Stands.{StandsAt};
ghost use Rattle.cilk_run.specs.model.Run.{Standing};
ghost use Rattle.cilk_run.specs.Drawn.{movers, turn_among, turn_of, turn_of_worker};
ghost use Rattle.cilk_run.specs.Drawing.{turn_with};

use crate::choosing::{any_of, can, find_movers, find_victims, one_of};
use crate::generator::SplitMix;
use cilk_run_locked::{Act, Choice, Machine};
use std::alloc::{AllocError, Global};
use std::marker::Model;

/// How far the choices of so many workers are drawn.
#[derive(Drop)]
pub(crate) struct Draws {
    workers: u8,
    /// Whose choice was the last one.
    last: u8,
    generator: SplitMix,
    /// Memory that is used again: what is in it between two draws means nothing.
    found: Vec<u8>,
    victims: Vec<u8>,
}

impl Model for Draws {
    ghost use Rattle.cilk_run.specs.Drawing as drawing;

    ghost Value = { drawing.Draws };

    ghost view = { λ d. record { workers = d.workers; last = d.last; state = d.generator } };
}

impl Draws {
    /// Those of a seed, before the first choice.
    pub(crate) fn new(alloc: Global, workers: u8, seed: u64) -> Draws
        ensures { result ≡ record { workers = workers; last = 1; state = seed } }
    {
        Draws {
            workers,
            last: 1,
            generator: SplitMix::new(seed),
            found: Vec::new(alloc),
            victims: Vec::new(alloc),
        }
    }

    /// The next choice on the machine, or none where no worker may do anything.
    pub(crate) fn next(&mut self, machine: &Machine) -> Result<Option<Choice>, AllocError>
        ensures drawn { IfOk result (λ o. (at : Standing) → StandsAt machine.now at
            → turn_of (label machine.now.program) self.old.workers at self.old.last self.old.state ≡ option_map (turn_with self.new.state) o) }
        ensures last { IfOk result (λ o. IfSome o (λ choice. self.new.last ≡ choice.worker)) }
        ensures workers { self.new.workers ≡ self.old.workers }
    {
        match machine.is_private(self.last) {
            Err(_) => Err(AllocError),
            Ok(true) => Ok(Some(Choice {
                worker: self.last,
                act: Act::Step,
            })),
            Ok(false) => self.next_of_all(machine),
        }
    }

    // The same, where no step is private.
    fn next_of_all(&mut self, machine: &Machine) -> Result<Option<Choice>, AllocError>
        ensures drawn { IfOk result (λ o. (at : Standing) → StandsAt machine.now at
            → turn_among (label machine.now.program) self.old.workers at self.old.state (movers (label machine.now.program) self.old.workers at)
            ≡ option_map (turn_with self.new.state) o) }
        ensures last { IfOk result (λ o. IfSome o (λ choice. self.new.last ≡ choice.worker)) }
        ensures workers { self.new.workers ≡ self.old.workers }
    {
        match drawn_choice(
            machine,
            self.workers,
            &mut self.found,
            &mut self.victims,
            &mut self.generator,
        ) {
            Err(error) => Err(error),
            Ok(drawn) => {
                self.last = worker_of(drawn, self.last);
                Ok(drawn)
            }
        }
    }
}

// Whose choice is the last one then.
fn worker_of(drawn: Option<Choice>, last: u8) -> u8
    ensures { IfSome drawn (λ choice. result ≡ choice.worker) }
{
    match drawn {
        None => last,
        Some(choice) => choice.worker,
    }
}

// The choice of one of the workers that may do anything.
fn drawn_choice(
    machine: &Machine,
    workers: u8,
    found: &mut Vec<u8>,
    spare: &mut Vec<u8>,
    generator: &mut SplitMix,
) -> Result<Option<Choice>, AllocError>
    ensures { IfOk result (λ o. (at : Standing) → StandsAt machine.now at
        → turn_among (label machine.now.program) workers at generator.old (movers (label machine.now.program) workers at)
        ≡ option_map (turn_with generator.new) o) }
{
    find_movers(machine, workers, found, spare)?;
    match any_of(found.as_slice(), generator) {
        None => Ok(None),
        Some(worker) => match choice_of_worker(machine, workers, worker, spare, generator) {
            Err(error) => Err(error),
            Ok(choice) => Ok(Some(choice)),
        },
    }
}

// What the worker does whose turn it is: it steps; else it pops; else it steals.
fn choice_of_worker(
    machine: &Machine,
    workers: u8,
    worker: u8,
    spare: &mut Vec<u8>,
    generator: &mut SplitMix,
) -> Result<Choice, AllocError>
    ensures { IfOk result (λ choice. (at : Standing) → StandsAt machine.now at
        → turn_of_worker (label machine.now.program) workers at generator.old worker ≡ turn_with generator.new choice) }
{
    if can(machine, worker, Act::Step) {
        let act = Act::Step;
        return Ok(Choice { worker, act });
    }
    if can(machine, worker, Act::Pop) {
        let act = Act::Pop;
        return Ok(Choice { worker, act });
    }
    find_victims(machine, workers, worker, spare)?;
    let act = Act::Steal(one_of(spare.as_slice(), generator));
    Ok(Choice { worker, act })
}
