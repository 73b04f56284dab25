//! The subcommand `run` with several seeds: a tally of their runs.

ghost use Rattle.std.specs.Prelude.{◌≡◌, ◌≢◌, [], true, false, IfOk, IfErr, OnOk, is_some, option_map};
ghost use Rattle.cilk_program_tapes.specs.commands.Front.{Gains, GainsFront};
ghost use Rattle.cilk_program_tapes.specs.commands.Status.{is_answer};
ghost use Rattle.cilk_program_tapes.specs.GivingUp.{FollowsProgram, GivesUpRun, IsOfRun, NoProgram};
ghost use Rattle.cilk_program_runs.specs.Tallying.{IsTally, Tallies, TalliesFront};
ghost use Rattle.cilk_program_runs.specs.AsAsked.{log_name};
ghost use Rattle.cilk_program_tapes.specs.Telling.{status_of};

use crate::run_task::RunTask;
use cilk_program_tapes::{
    Failure, RecordFailure, Status, Streams, read_text, ready_of, write_answer,
};
use cilk_run::{RunFault, tally_of_seeds};
use std::alloc::Global;
use std::io::{Read, Write};

/// Makes so many runs of the program that the reader holds, by this seed and the ones behind it, and writes to the output which outcomes they have; or
/// else the line that says why not goes to the errors, and with `task.explain` more of a fault in the program. The log, the seed and the number of
/// runs of the task are not looked at. The answer is made whole before any of it is written. A line that cannot be written is lost.
pub fn tally_text<R: Read, O: Write, E: Write>(
    alloc: Global,
    task: &RunTask<'_>,
    seed: u32,
    runs: u32,
    reader: &mut R,
    streams: &mut Streams<O, E>,
) -> Status
    ensures done { is_answer result ≡ true → Tallies task.now.workers task.now.limit seed runs (R.remaining reader.old)
        (O.contents streams.old.output) (O.contents streams.new.output) }
    ensures only { is_answer result ≡ true → result ≡ Status.Done }
    ensures usage { result ≢ Status.Usage }

    // Where there is no answer.
    ensures told { is_answer result ≡ false
        → GivesUpRun task.now.workers (is_some task.now.log) task.now.explain task.now.program.now (log_name (option_map (λ it. it.now) task.now.log)) result
        (R.remaining reader.old) (E.contents streams.old.errors) (E.contents streams.new.errors) }
    ensures begun { result ≡ Status.CannotWrite → TalliesFront task.now.workers task.now.limit seed runs (R.remaining reader.old)
        (O.contents streams.old.output) (O.contents streams.new.output) }

    // What stays as it was.
    ensures quiet { is_answer result ≡ true → streams.new.errors ≡ streams.old.errors }
    ensures kept { is_answer result ≡ false → result ≢ Status.CannotWrite → streams.new.output ≡ streams.old.output }
{
    let names = task.names();
    let bytes = match read_text(alloc, reader) {
        Ok(bytes) => bytes,
        Err(failure) => {
            return RecordFailure::Program(failure).report(&names, &mut streams.errors);
        }
    };
    let text = bytes.as_slice();
    match tally(alloc, task, text, seed, runs, &mut streams.output) {
        Ok(()) => Status::Done,
        Err(why) => why.report_explained(alloc, &names, task.explain, text, &mut streams.errors),
    }
}

fn tally<W: Write>(
    alloc: Global,
    task: &RunTask<'_>,
    text: &[u8],
    seed: u32,
    runs: u32,
    out: &mut W,
) -> Result<(), RecordFailure>
    ensures ok { OnOk result (Gains (IsTally task.now.workers task.now.limit seed runs text.now) (W.contents out.old) (W.contents out.new)) }
    ensures declined { IfErr result (λ why. status_of why ≡ Status.Refused → NoProgram text.now [] why) }
    ensures follows { IfErr result (FollowsProgram text.now) }
    ensures of_run { IfErr result (IsOfRun task.now.workers (is_some task.now.log)) }
    ensures begun { IfErr result (λ why. status_of why ≡ Status.CannotWrite
        → GainsFront (IsTally task.now.workers task.now.limit seed runs text.now) (W.contents out.old) (W.contents out.new)) }
    ensures kept { IfErr result (λ why. status_of why ≢ Status.CannotWrite → out.new ≡ out.old) }
{
    let answer = match tallied(alloc, task, text, seed, runs) {
        Ok(answer) => answer,
        Err(why) => return Err(why),
    };
    match write_answer(out, answer.as_slice()) {
        Ok(()) => Ok(()),
        Err(failure) => Err(RecordFailure::Program(failure)),
    }
}

// The text of the tally.
fn tallied(
    alloc: Global,
    task: &RunTask<'_>,
    text: &[u8],
    seed: u32,
    runs: u32,
) -> Result<Vec<u8>, RecordFailure>
    ensures ok { IfOk result (λ answer. IsTally task.now.workers task.now.limit seed runs text.now answer.items) }
    ensures declined { IfErr result (λ why. status_of why ≡ Status.Refused → NoProgram text.now [] why) }
    ensures follows { IfErr result (FollowsProgram text.now) }
    ensures of_run { IfErr result (IsOfRun task.now.workers (is_some task.now.log)) }
    ensures reads { IfErr result (λ why. status_of why ≢ Status.CannotWrite) }
{
    let program = match ready_of(alloc, text) {
        Ok(program) => program,
        Err(failure) => return Err(RecordFailure::Program(failure)),
    };
    let answer = tally_of_seeds(alloc, &program, task.workers, task.limit, seed, runs);
    drop(program);
    match answer {
        Ok(answer) => Ok(answer),
        Err(RunFault::Memory) => Err(RecordFailure::Program(Failure::Memory)),
        Err(RunFault::Start | RunFault::Workers) => Err(RecordFailure::CannotStart),
    }
}
