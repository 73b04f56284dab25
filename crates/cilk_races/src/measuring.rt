//! The numbers of a run, found in one pass, while its choices are made again.

ghost use Rattle.std.specs.Prelude.{◌≡◌, ◌≤◌, ◌^◌, true, IfOk, IfErr, length, map};
ghost use Rattle.cilk_log_replay.specs.machine.sched.Words.{choice_of};
ghost use Rattle.cilk_log_replay.specs.log.Naming.{is_of};
ghost use Rattle.cilk_log_replay.specs.ReplayFaults.{IsFaultOf, IsNamedFaultOf};
ghost use Rattle.cilk_log_replay.specs.Tape.{IsAt, Tape, tape_of};
ghost use Rattle.cilk_log_replay.specs.machine.syntax.ProgramText.{program_text};
ghost use Rattle.cilk_races.specs.Gauged.{IsMeasureOf};
ghost use Rattle.cilk_races.specs.Held.{Gauged};
ghost use Rattle.cilk_races.specs.Seats.{told};
ghost use Rattle.cilk_races.specs.Words.{numbers_of};

use crate::gauge::Gauge;
use crate::measure::Measure;
use cilk_log_replay::{Choice, Loaded, Log, Machine, ReplayFault, play, refuse_other};
use std::alloc::Global;

/// A program behind all choices of a recorded schedule, and the numbers that are told of them.
#[derive(Drop)]
pub struct Measured {
    pub machine: Machine,
    pub measure: Measure,
}

// No memory holds more choices, and so none of their numbers is too large for 64 bits.
const MOST: usize = 1 << 59;

/// Makes the choices of a recorded schedule again, and tells the numbers of the run. That the schedule is of another program is told first,
/// and then what `play` tells.
pub fn measure_all(alloc: Global, program: Loaded, log: &Log) -> Result<Measured, ReplayFault>
    ensures numbers { IfOk result (λ m. IsMeasureOf (tape_of program log.now.workers log.now.choices) (numbers_of m.measure)) }
    ensures stands { IfOk result (λ m. IsAt (tape_of program log.now.workers log.now.choices) (length log.now.choices) m.machine) }
    ensures own { IfOk result (λ _. is_of log.now.program (program_text program) ≡ true) }
    ensures told { IfErr result (IsNamedFaultOf log.now.program (tape_of program log.now.workers log.now.choices)) }
{
    match refuse_other(&program, log) {
        Err(fault) => {
            drop(program);
            Err(fault)
        }
        Ok(()) => measure_choices(alloc, program, log.workers, log.choices.as_slice()),
    }
}

// The same of choices of so many workers.
fn measure_choices(
    alloc: Global,
    program: Loaded,
    workers: u8,
    choices: &[Choice],
) -> Result<Measured, ReplayFault>
    ensures numbers { IfOk result (λ m. IsMeasureOf (tape_of program workers choices.now) (numbers_of m.measure)) }
    ensures stands { IfOk result (λ m. IsAt (tape_of program workers choices.now) (length choices.now) m.machine) }
    ensures told { IfErr result (IsFaultOf (tape_of program workers choices.now)) }
{
    if MOST < choices.len() {
        drop(program);
        return Err(ReplayFault::Memory);
    }
    match play(alloc, program, workers, choices, 0) {
        Err(fault) => Err(fault),
        Ok(machine) => match Gauge::new(alloc, machine, workers) {
            Err(fault) => Err(fault),
            Ok(gauge) => match go_through(gauge, choices) {
                Err(fault) => Err(fault),
                Ok(gauge) => told(alloc, gauge),
            },
        },
    }
}

// The machine makes all choices again, of which none was made yet.
fn go_through(gauge: Gauge, choices: &[Choice]) -> Result<Gauge, ReplayFault>
    requires none { gauge.machine.choices ≡ 0 }
    requires few { length choices.now ≤ 2 ^ 59 }
    ensures stands { IfOk result (λ g. (t : Tape) → t.choices ≡ map choice_of choices.now
        → IsAt t 0 gauge.machine → IsAt t (length choices.now) g.machine) }
    ensures gauged { IfOk result (λ g. (t : Tape) → t.choices ≡ map choice_of choices.now → IsAt t 0 gauge.machine
        → Gauged t 0 gauge
        → Gauged t (length choices.now) g) }
    ensures told { IfErr result (λ why. (t : Tape) → t.choices ≡ map choice_of choices.now → IsAt t 0 gauge.machine → IsFaultOf t why) }
{
    let mut gauge = gauge;
    for made in 0..choices.len() {
        match gauge.advance(choices, made) {
            Err(fault) => return Err(fault),
            Ok(()) => {}
        }
    }
    Ok(gauge)
}

// The numbers that are told of what is kept.
fn told(alloc: Global, gauge: Gauge) -> Result<Measured, ReplayFault>
    ensures machine { IfOk result (λ m. m.machine ≡ gauge.machine) }
    ensures numbers { IfOk result (λ m. numbers_of m.measure ≡ told gauge.tally gauge.counts) }
    ensures memory { IfErr result (λ why. why ≡ ReplayFault.Memory) }
{
    let measure = gauge.measure(alloc);
    let Gauge { machine, .. } = gauge;
    match measure {
        Err(_) => {
            drop(machine);
            Err(ReplayFault::Memory)
        }
        Ok(measure) => Ok(Measured { machine, measure }),
    }
}
