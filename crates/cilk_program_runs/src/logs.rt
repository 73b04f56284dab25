//! The logs of an exploration: each is written as the one of a run is.

ghost use Rattle.std.specs.Prelude.{◌≡◌, ◌≢◌, ℕ, Bool, true, map, Some, IfOk, IfErr, IfSome, OnOk};
ghost use Rattle.cilk_program_tapes.specs.commands.ProgramText.{program_text};
ghost use Rattle.cilk_program_tapes.specs.commands.syntax.Tree.{Program};
ghost use Rattle.cilk_program_tapes.specs.replay.log.Naming.{digest_of};
ghost use Rattle.cilk_program_tapes.specs.replay.log.Text.{log_text};
ghost use Rattle.cilk_run.specs.choices.Words.{choice_of};
ghost use Rattle.cilk_program_runs.specs.Exploring.{AreKept, logs_of, recorded};
ghost use Rattle.cilk_program_runs.specs.Outcomes.{outcomes_by};
ghost use Rattle.cilk_program_runs.specs.Unexplored.{IsOfLogs};

use crate::folder::LogFolder;
use crate::outcome::{endings_before, log_in, outcome_at, outcome_count};
use crate::unexplored::Unexplored;
use cilk_explore::{Choice, Exploration};
use cilk_program_tapes::{Choices, Failure, Loaded, Log, write_log};
use cilk_run::digest_of_program;
use std::alloc::{AllocError, Global};

/// Keeps a log of each outcome, by its number, where logs are wanted.
pub(crate) fn keep_logs<F: LogFolder>(
    alloc: Global,
    program: &Loaded,
    workers: u8,
    exploration: &Exploration,
    folder: &mut F,
) -> Result<(), Unexplored>
    ensures kept { OnOk result (F.wanted folder.old ≡ true
        → AreKept (logs_of program.now workers (outcomes_by exploration.now)) (F.stored folder.new)) }
    ensures err { IfErr result (IsOfLogs (F.wanted folder.old)) }
{
    if !folder.is_wanted() {
        return Ok(());
    }
    let Ok(digest) = digest_of_program(program) else {
        return Err(Unexplored::Program(Failure::Memory));
    };
    let before = endings_before(exploration);
    let count = outcome_count(exploration);
    for k in 0..count {
        let log = log_in(outcome_at(exploration, before, k));
        match keep_log(alloc, &digest, workers, log, k as u64 + 1, folder) {
            Ok(()) => {}
            Err(why) => return Err(why),
        }
    }
    Ok(())
}

// Keeps the log of these choices.
fn keep_log<F: LogFolder>(
    alloc: Global,
    digest: &[u8; 32],
    workers: u8,
    choices: &[Choice],
    number: u64,
    folder: &mut F,
) -> Result<(), Unexplored>
    ensures kept { OnOk result ((program : Program) → digest.now ≡ digest_of (program_text program)
        → IfSome (F.stored folder.new number) (λ bytes. bytes ≡ recorded program workers (map choice_of choices.now))) }
    ensures others { OnOk result ((k : ℕ) → k ≢ number → F.stored folder.new k ≡ F.stored folder.old k) }
    ensures err { IfErr result (λ why. (wanted : Bool) → wanted ≡ true → IsOfLogs wanted why) }
{
    let Ok(text) = text_of_log(alloc, digest, workers, choices) else {
        return Err(Unexplored::Program(Failure::Memory));
    };
    match folder.store(number, text.as_slice()) {
        Ok(()) => Ok(()),
        Err(_) => Err(Unexplored::CannotKeep(number)),
    }
}

// A log has fewer choices than standings were kept, and the words of the command line ask for no more of these than one tells, so it is memory that
// is wanting where there is no text.
fn text_of_log(
    alloc: Global,
    digest: &[u8; 32],
    workers: u8,
    choices: &[Choice],
) -> Result<Vec<u8>, AllocError>
    ensures { IfOk result (λ text. text.items
        ≡ log_text (record { program = Some digest.now; workers = workers; choices = map choice_of choices.now })) }
{
    let copy = Vec::from_slice(alloc, choices)?;
    let log = Log {
        program: Some(*digest),
        workers,
        choices: Choices::of(copy),
    };
    let text = write_log(alloc, &log);
    drop(log);
    match text {
        Ok(text) => Ok(text),
        Err(_) => Err(AllocError),
    }
}
