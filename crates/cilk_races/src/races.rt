//! The races of a run, found in one pass, while its choices are made again.

ghost use Rattle.std.specs.Prelude.{◌≡◌, ◌≤◌, ◌^◌, List, true, IfErr, IfOk, length, map};
ghost use Rattle.std.specs.List.{All};
ghost use Rattle.cilk_log_replay.specs.machine.agree.scopes.WellFormed.{WellFormed};
ghost use Rattle.cilk_log_replay.specs.machine.sched.Words.{choice_of};
ghost use Rattle.cilk_log_replay.specs.machine.labelled.Labelled.{Labelled};
ghost use Rattle.cilk_log_replay.specs.machine.model.Event.{Event};
ghost use Rattle.cilk_log_replay.specs.machine.syntax.ProgramText.{program_text};
ghost use Rattle.cilk_log_replay.specs.log.Naming.{is_of};
ghost use Rattle.cilk_log_replay.specs.ReplayFaults.{IsFaultOf, IsNamedFaultOf};
ghost use Rattle.cilk_log_replay.specs.Tape.{IsAt, Tape, tape_of};
ghost use Rattle.cilk_races.specs.Paired.{Within};
ghost use Rattle.cilk_races.specs.Found.{HoldsRun, KeepsOf, told_in};
ghost use Rattle.cilk_races.specs.Raced.{AreRacesOf};
ghost use Rattle.cilk_races.specs.Watched.{Watched};

use crate::pairing::{Pair, entries_of};
use crate::relation::Relation;
use crate::rows::Rows;
use crate::touch::Touch;
use crate::watch::Watch;
use cilk_log_replay::{Choice, Loaded, Log, Machine, Memory, ReplayFault, play, refuse_other};
use std::alloc::Global;

/// A program behind all choices of a recorded schedule, and the races of that run.
#[derive(Drop)]
pub(crate) struct Races {
    pub machine: Machine,
    pub rows: Rows,
    pub touches: Vec<Touch>,
    /// The first pair of each entry.
    pub entries: Vec<Pair>,
}

// No memory holds more choices, and so none of their numbers is too large for 64 bits.
const MOST: usize = 1 << 59;

/// Makes the choices of a recorded schedule again, and finds the races of the run. That the schedule is of another program is told first,
/// and then what `play` tells.
pub(crate) fn races_of_run(alloc: Global, program: Loaded, log: &Log) -> Result<Races, ReplayFault>
    ensures races { IfOk result (λ r. AreRacesOf (tape_of program log.now.workers log.now.choices) (told_in r)) }
    ensures holds { IfOk result (HoldsRun (tape_of program log.now.workers log.now.choices)) }
    ensures within { IfOk result (λ r. All (Within (length r.touches.items)) r.entries.items) }
    ensures own { IfOk result (λ _. is_of log.now.program (program_text program) ≡ true) }
    ensures told { IfErr result (IsNamedFaultOf log.now.program (tape_of program log.now.workers log.now.choices)) }
{
    match refuse_other(&program, log) {
        Err(fault) => {
            drop(program);
            Err(fault)
        }
        Ok(()) => races_of_choices(alloc, program, log.workers, log.choices.as_slice()),
    }
}

// The same of choices of so many workers.
fn races_of_choices(
    alloc: Global,
    program: Loaded,
    workers: u8,
    choices: &[Choice],
) -> Result<Races, ReplayFault>
    ensures races { IfOk result (λ r. AreRacesOf (tape_of program workers choices.now) (told_in r)) }
    ensures holds { IfOk result (HoldsRun (tape_of program workers choices.now)) }
    ensures within { IfOk result (λ r. All (Within (length r.touches.items)) r.entries.items) }
    ensures told { IfErr result (IsFaultOf (tape_of program workers choices.now)) }
{
    match watch_choices(alloc, program, workers, choices) {
        Err(fault) => Err(fault),
        Ok(watch) => found(alloc, watch),
    }
}

/// Makes choices of so many workers again, and keeps what they touch.
pub(crate) fn watch_choices(
    alloc: Global,
    program: Loaded,
    workers: u8,
    choices: &[Choice],
) -> Result<Watch, ReplayFault>
    ensures stands { IfOk result (λ w. IsAt (tape_of program workers choices.now) (length choices.now) w.machine) }
    ensures watched { IfOk result (Watched (tape_of program workers choices.now) (length choices.now)) }
    ensures told { IfErr result (IsFaultOf (tape_of program workers choices.now)) }
{
    if MOST < choices.len() {
        drop(program);
        return Err(ReplayFault::Memory);
    }
    match play(alloc, program, workers, choices, 0) {
        Err(fault) => Err(fault),
        Ok(machine) => match Watch::new(alloc, machine) {
            Err(fault) => Err(fault),
            Ok(watch) => go_through(alloc, watch, choices),
        },
    }
}

// The machine makes all choices again, of which none was made yet.
fn go_through(alloc: Global, watch: Watch, choices: &[Choice]) -> Result<Watch, ReplayFault>
    requires none { watch.machine.choices ≡ 0 }
    requires few { length choices.now ≤ 2 ^ 59 }
    ensures stands { IfOk result (λ w. (t : Tape) → t.choices ≡ map choice_of choices.now
        → IsAt t 0 watch.machine → IsAt t (length choices.now) w.machine) }
    ensures watched { IfOk result (λ w. (t : Tape) → t.choices ≡ map choice_of choices.now → IsAt t 0 watch.machine
        → WellFormed t.program → Watched t 0 watch → Watched t (length choices.now) w) }
    ensures told { IfErr result (λ why. (t : Tape) → t.choices ≡ map choice_of choices.now → IsAt t 0 watch.machine → IsFaultOf t why) }
{
    let mut watch = watch;
    for made in 0..choices.len() {
        match watch.advance(alloc, choices, made) {
            Err(fault) => return Err(fault),
            Ok(()) => {}
        }
    }
    Ok(watch)
}

// The pairs that are told of what is kept.
fn found(alloc: Global, watch: Watch) -> Result<Races, ReplayFault>
    ensures kept { IfOk result (KeepsOf watch) }
    ensures within { IfOk result (λ r. All (Within (length r.touches.items)) r.entries.items) }
    ensures memory { IfErr result (λ why. why ≡ ReplayFault.Memory) }
{
    match entries_of(alloc, &watch.rows, watch.touches.as_slice()) {
        Err(_) => {
            drop(watch);
            Err(ReplayFault::Memory)
        }
        Ok(entries) => {
            let Watch {
                machine,
                tally: _tally,
                rows,
                touches,
            } = watch;
            Ok(Races {
                machine,
                rows,
                touches,
                entries,
            })
        }
    }
}
