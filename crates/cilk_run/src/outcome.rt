//! The outcome by which a tally counts the run of a seed: what it printed, and the words of its closing line.

ghost use Rattle.std.specs.Prelude.{◌≡◌, ◌≢◌, ◌<◌, ◌⊎◌, Err, IfOk, string_bytes};
ghost use Rattle.cilk_run.specs.choices.Words.{end_of};
ghost use Rattle.cilk_run.specs.labelled.Bodies.{label};
ghost use Rattle.cilk_run.specs.machine.Stands.{StandsAt};
ghost use Rattle.cilk_run.specs.model.End.{end_now};
ghost use Rattle.cilk_run.specs.model.Run.{Standing};
ghost use Rattle.cilk_run.specs.Tallied.{end_words, outcome_of};
ghost use Rattle.cilk_run.specs.Tallying.{outcome_by};

use crate::playing::played_by_seed;
use crate::run_result::RunFault;
use cilk_run_locked::{End, Loaded, Machine, Memory, put_trapped};
use std::alloc::Global;

/// What a run printed, and the words of its closing line, without a number of choices.
#[derive(Drop)]
pub(crate) struct Outcome {
    pub printed: Vec<u8>,
    pub ended: String,
}

/// That of the run which a seed names.
pub(crate) fn outcome_of(
    alloc: Global,
    program: &Loaded,
    workers: u8,
    limit: u32,
    seed: u64,
) -> Result<Outcome, RunFault>
    ensures ok { IfOk result (λ o. outcome_by o ≡ outcome_of (label program.now) workers limit seed) }
    ensures workers { result ≡ Err RunFault.Workers → (workers ≡ 0) ⊎ (64 < workers) }
    ensures start { result ≢ Err RunFault.Start }
{
    let copy = match program.copy() {
        Ok(copy) => copy,
        Err(_) => return Err(RunFault::Memory),
    };
    let locked = match played_by_seed(alloc, copy, workers, seed, limit) {
        Ok(locked) => locked,
        Err(fault) => return Err(fault),
    };
    let outcome = outcome_in(alloc, locked.machine());
    drop(locked);
    match outcome {
        Ok(outcome) => Ok(outcome),
        Err(_) => Err(RunFault::Memory),
    }
}

// That of a machine, as it stands.
fn outcome_in(alloc: Global, machine: &Machine) -> Result<Outcome, Memory>
    ensures printed { IfOk result (λ o. (at : Standing) → StandsAt machine.now at → o.printed.items ≡ at.state.output) }
    ensures ended { IfOk result (λ o. (at : Standing) → StandsAt machine.now at
        → string_bytes o.ended ≡ end_words (end_now (label machine.now.program) at)) }
{
    match Vec::from_slice(alloc, machine.output()) {
        Err(error) => Err(Memory::from(error)),
        Ok(printed) => match words_at(alloc, machine) {
            Ok(ended) => Ok(Outcome { printed, ended }),
            Err(memory) => {
                drop(printed);
                Err(memory)
            }
        },
    }
}

fn words_at(alloc: Global, machine: &Machine) -> Result<String, Memory>
    ensures { IfOk result (λ words. (at : Standing) → StandsAt machine.now at
        → string_bytes words ≡ end_words (end_now (label machine.now.program) at)) }
{
    match machine.end_now() {
        Err(memory) => Err(memory),
        Ok(end) => words_of(alloc, &end),
    }
}

fn words_of(alloc: Global, end: &End) -> Result<String, Memory>
    ensures { IfOk result (λ words. string_bytes words ≡ end_words (end_of end.now)) }
{
    match end {
        End::Finished(value) => Ok(format!(in alloc; "main returned {value}")?),
        End::Trapped {
            kind,
            path,
            n,
            line,
        } => {
            let mut words = String::new(alloc);
            put_trapped(&mut words, *kind, path, *n, *line)?;
            Ok(words)
        }
        End::Stuck => Ok(String::from_str(alloc, "stuck")?),
        End::Limit => Ok(String::from_str(alloc, "limit")?),
    }
}
