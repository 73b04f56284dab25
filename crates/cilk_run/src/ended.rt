//! The `Run` of a machine with its history, once nothing is left to do (`run_of`), and what it closes with (`closing`), which `Table` asks for too.

ghost use Rattle.std.specs.Prelude.{◌≡◌, ◌<◌, ◌^◌, length, IfOk, IfErr};
ghost use Rattle.cilk_run.specs.choices.Words.{end_of};
ghost use Rattle.cilk_run.specs.machine.Situation.{workers_of};
ghost use Rattle.cilk_run.specs.machine.Stands.{StandsAt};
ghost use Rattle.cilk_run.specs.labelled.Bodies.{label};
ghost use Rattle.cilk_run.specs.model.End as model;
ghost use Rattle.cilk_run.specs.model.Run.{Standing};
ghost use Rattle.cilk_run.specs.Histories.{IsCounted};
ghost use Rattle.cilk_run.specs.Runs.{IsRun, Stops};

use crate::run_lists::{ChoiceCounts, Output};
use crate::run_result::{Run, RunFault};
use crate::table::{count, digest_of_program};
use cilk_run_locked::{Choice, End, Locked, Log, Machine, Memory};
use std::alloc::Global;

/// The run that the choices of a machine with its history are: with so many workers, and at most so many choices.
pub(crate) fn run_of(
    alloc: Global,
    locked: Locked,
    workers: u8,
    limit: u32,
) -> Result<Run, RunFault>
    requires crew { workers_of locked.machine ≡ workers }
    requires over { Stops limit locked.machine }
    ensures ok { IfOk result (λ r. IsRun locked.machine.program workers limit r) }
    ensures choices { IfOk result (λ r. r.log.choices ≡ locked.history) }
    ensures err { IfErr result (λ e. e ≡ RunFault.Memory) }
{
    let Ok(digest) = digest_of_program(locked.machine().loaded()) else {
        return Err(RunFault::Memory);
    };
    match turns_in(alloc, locked.history(), workers) {
        Err(_) => {
            drop(locked);
            Err(RunFault::Memory)
        }
        Ok(turns) => match closing(alloc, locked.machine()) {
            Err(_) => {
                drop(locked);
                drop(turns);
                Err(RunFault::Memory)
            }
            Ok((end, output)) => {
                let log = Log {
                    program: Some(digest),
                    workers,
                    choices: locked.into_choices(),
                };
                Ok(Run {
                    end,
                    log,
                    output,
                    turns: ChoiceCounts::new(turns),
                })
            }
        },
    }
}

/// How a program stands at its end, and what it printed.
pub(crate) fn closing(alloc: Global, machine: &Machine) -> Result<(End, Output), Memory>
    ensures end { IfOk result (λ both. (at : Standing) → StandsAt machine.now at → end_of (both.0) ≡ model.end_now (label machine.now.program) at) }
    ensures output { IfOk result (λ both. (at : Standing) → StandsAt machine.now at → both.1 ≡ at.state.output) }
{
    match Vec::from_slice(alloc, machine.output()) {
        Err(memory) => Err(Memory::from(memory)),
        Ok(bytes) => match machine.end_now() {
            Err(memory) => {
                drop(bytes);
                Err(memory)
            }
            Ok(end) => Ok((end, Output::new(bytes))),
        },
    }
}

// How many of these choices each of so many workers made.
fn turns_in(alloc: Global, history: &[Choice], workers: u8) -> Result<Vec<u64>, Memory>
    requires { length history.now < 2 ^ 32 }
    ensures { IfOk result (λ turns. IsCounted workers turns.items history.now) }
{
    let mut turns = vec![in alloc; 0u64; usize::from(workers)]?;
    for choice in history {
        // A history has no other workers, but that is not said of it here.
        if 1 <= choice.worker && choice.worker <= workers {
            count(&mut turns, choice.worker);
        }
    }
    Ok(turns)
}
