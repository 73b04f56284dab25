//! The subcommands that run a program or go by a schedule, with the texts that they read by their names and the logs that they write.

ghost use Rattle.std.specs.Prelude.{◌≡◌, ◌≢◌, ◌⊎◌, true, false, is_some, option_map};
ghost use Rattle.cilk_program_tapes.specs.commands.Status.{is_answer};
ghost use Rattle.cilk_program_runs.specs.Debugging.{Debugs, DebugsFront, DebugsPart};
ghost use Rattle.cilk_program_runs.specs.Exploring.{GivesUpExploring};
ghost use Rattle.cilk_program_tapes.specs.GivingUp.{GivesUp, GivesUpRun};
ghost use Rattle.cilk_program_tapes.specs.Replaying.{Replays, ReplaysFront};
ghost use Rattle.cilk_program_tapes.specs.Saying.{ExplainsTrap, tells_trap};
ghost use Rattle.cilk_program_tapes.specs.Taped.{Declines};
ghost use Rattle.cilk_program_runs.specs.OnTapes.{TellsAsAsked, TellsFrontAsAsked};
ghost use Rattle.cilk_program_runs.specs.AsAsked.{ExploresFrontSomewhere, ExploresSomewhere, FailsOnTape};
ghost use Rattle.cilk_program_runs.specs.AsAsked.{RunsAsAsked, RunsFrontAsAsked, RunsFrontSomewhere, RunsSomewhere, log_name};

use crate::debug::debug_text;
use crate::explore::explore_text;
use crate::explore_task::ExploreTask;
use crate::run::run_text;
use crate::run_task::RunTask;
use crate::tally::tally_text;
use crate::tape_answer::{TapeAnswering, tape_log_text};
use crate::tape_task::TapeTask;
use crate::texts::Texts;
use cilk_program_tapes::{
    Answering, Failure, FileNames, LogTask, RecordFailure, Status, Streams, answer_text,
    replay_text,
};
use std::alloc::Global;
use std::io::{Read, Write};
use std::sync::Wait;
use std::thread::Threads;

/// Runs the program that the reader holds, or makes so many runs of it, by its seed and the ones behind it.
pub fn run_as_asked<H: Threads + Wait + Sync, T: Texts, R: Read, O: Write, E: Write>(
    rt: &H,
    alloc: Global,
    task: &RunTask<'_>,
    texts: &T,
    reader: &mut R,
    streams: &mut Streams<O, E>,
) -> Status
    ensures done { is_answer result ≡ true → RunsAsAsked task.now.workers task.now.limit task.now.seed task.now.runs result
        (R.remaining reader.old) (O.contents streams.old.output) (O.contents streams.new.output) }
    ensures told { is_answer result ≡ false
        → GivesUpRun task.now.workers (is_some task.now.log) task.now.explain task.now.program.now (log_name (option_map (λ it. it.now) task.now.log)) result
        (R.remaining reader.old) (E.contents streams.old.errors) (E.contents streams.new.errors) }
    ensures begun { result ≡ Status.CannotWrite → RunsFrontAsAsked task.now.workers task.now.limit task.now.seed task.now.runs
        (R.remaining reader.old) (O.contents streams.old.output) (O.contents streams.new.output) }
    ensures usage { result ≢ Status.Usage }
    ensures explained { tells_trap task.now.explain result ≡ true → ExplainsTrap task.now.program.now (R.remaining reader.old)
        (O.contents streams.old.output) (O.contents streams.new.output) (E.contents streams.old.errors) (E.contents streams.new.errors) }
    ensures quiet { is_answer result ≡ true → tells_trap task.now.explain result ≡ false → streams.new.errors ≡ streams.old.errors }
    ensures kept { is_answer result ≡ false → result ≢ Status.CannotWrite → streams.new.output ≡ streams.old.output }
{
    match task.runs {
        None => run_named(rt, alloc, task, texts, reader, streams),
        Some(runs) => match task.seed {
            // No words bring this: several runs without a seed are refused (`Clash::in_runs`).
            None => run_named(rt, alloc, task, texts, reader, streams),
            Some(seed) => tally_text(alloc, task, seed, runs, reader, streams),
        },
    }
}

// Runs the program that the reader holds, with a log where one is wanted.
fn run_named<H: Threads + Wait + Sync, T: Texts, R: Read, O: Write, E: Write>(
    rt: &H,
    alloc: Global,
    task: &RunTask<'_>,
    texts: &T,
    reader: &mut R,
    streams: &mut Streams<O, E>,
) -> Status
    ensures done { is_answer result ≡ true → RunsSomewhere task.now.workers task.now.limit task.now.seed result
        (R.remaining reader.old) (O.contents streams.old.output) (O.contents streams.new.output) }
    ensures told { is_answer result ≡ false
        → GivesUpRun task.now.workers (is_some task.now.log) task.now.explain task.now.program.now (log_name (option_map (λ it. it.now) task.now.log)) result
        (R.remaining reader.old) (E.contents streams.old.errors) (E.contents streams.new.errors) }
    ensures begun { result ≡ Status.CannotWrite → RunsFrontSomewhere task.now.workers task.now.limit task.now.seed
        (R.remaining reader.old) (O.contents streams.old.output) (O.contents streams.new.output) }
    ensures usage { result ≢ Status.Usage }
    ensures explained { tells_trap task.now.explain result ≡ true → ExplainsTrap task.now.program.now (R.remaining reader.old)
        (O.contents streams.old.output) (O.contents streams.new.output) (E.contents streams.old.errors) (E.contents streams.new.errors) }
    ensures quiet { is_answer result ≡ true → tells_trap task.now.explain result ≡ false → streams.new.errors ≡ streams.old.errors }
    ensures kept { is_answer result ≡ false → result ≢ Status.CannotWrite → streams.new.output ≡ streams.old.output }
{
    let Ok(mut store) = texts.log_store(alloc, task.program, task.log) else {
        let failure = RecordFailure::Program(Failure::Memory);
        return failure.report(&task.names(), &mut streams.errors);
    };
    run_text(rt, alloc, task, reader, &mut store, streams)
}

/// Explores the program that the reader holds, with logs where they are wanted.
pub fn explore_named<T: Texts, R: Read, O: Write, E: Write>(
    alloc: Global,
    task: &ExploreTask<'_>,
    texts: &T,
    reader: &mut R,
    streams: &mut Streams<O, E>,
) -> Status
    ensures done { is_answer result ≡ true → ExploresSomewhere task.now.workers task.now.limit (is_some task.now.logs) result
        (R.remaining reader.old) (O.contents streams.old.output) (O.contents streams.new.output) }
    ensures untrapped { result ≢ Status.Trapped }
    ensures told { is_answer result ≡ false
        → GivesUpExploring (is_some task.now.logs) task.now.explain task.now.program.now (log_name (option_map (λ it. it.now) task.now.logs)) result
        (R.remaining reader.old) (E.contents streams.old.errors) (E.contents streams.new.errors) }
    ensures begun { result ≡ Status.CannotWrite → ExploresFrontSomewhere task.now.workers task.now.limit (is_some task.now.logs)
        (R.remaining reader.old) (O.contents streams.old.output) (O.contents streams.new.output) }
    ensures usage { result ≢ Status.Usage }
    ensures quiet { is_answer result ≡ true → streams.new.errors ≡ streams.old.errors }
    ensures kept { is_answer result ≡ false → result ≢ Status.CannotWrite → streams.new.output ≡ streams.old.output }
{
    let Ok(mut folder) = texts.log_folder(alloc, task.program, task.logs) else {
        return Failure::Memory.report(task.program, &mut streams.errors);
    };
    explore_text(alloc, task, reader, &mut folder, streams)
}

/// Replays a log, of the program that the reader holds.
pub fn replay_named<T: Texts, R: Read, O: Write, E: Write>(
    alloc: Global,
    task: &LogTask<'_>,
    texts: &T,
    reader: &mut R,
    streams: &mut Streams<O, E>,
) -> Status
    ensures done { is_answer result ≡ true → Replays result (R.remaining reader.old)
        (T.held texts.now task.now.names.log.now) (O.contents streams.old.output) (O.contents streams.new.output) }
    ensures told { is_answer result ≡ false
        → GivesUp Declines task.now.explain task.now.names.program.now task.now.names.log.now result
        (R.remaining reader.old) (T.held texts.now task.now.names.log.now) (E.contents streams.old.errors) (E.contents streams.new.errors) }
    ensures begun { result ≡ Status.CannotWrite → ReplaysFront (R.remaining reader.old)
        (T.held texts.now task.now.names.log.now) (O.contents streams.old.output) (O.contents streams.new.output) }
    ensures usage { result ≢ Status.Usage }
    ensures explained { tells_trap task.now.explain result ≡ true → ExplainsTrap task.now.names.program.now (R.remaining reader.old)
        (O.contents streams.old.output) (O.contents streams.new.output) (E.contents streams.old.errors) (E.contents streams.new.errors) }
    ensures quiet { is_answer result ≡ true → tells_trap task.now.explain result ≡ false → streams.new.errors ≡ streams.old.errors }
    ensures kept { is_answer result ≡ false → result ≢ Status.CannotWrite → streams.new.output ≡ streams.old.output }
{
    replay_text(alloc, task, reader, texts.open(task.names.log), streams)
}

/// Debugs a log, of the program that the reader holds.
pub fn debug_named<T: Texts, R: Read, O: Write, E: Write>(
    alloc: Global,
    task: &LogTask<'_>,
    texts: &T,
    reader: &mut R,
    streams: &mut Streams<O, E>,
) -> Status
    ensures done { result ≡ Status.Done → Debugs (R.remaining reader.old)
        (T.held texts.now task.now.names.log.now) (T.entered texts.now) (O.contents streams.old.output) (O.contents streams.new.output) }
    ensures told { is_answer result ≡ false
        → GivesUp Declines task.now.explain task.now.names.program.now task.now.names.log.now result
        (R.remaining reader.old) (T.held texts.now task.now.names.log.now) (E.contents streams.old.errors) (E.contents streams.new.errors) }
    ensures begun { result ≡ Status.CannotWrite → DebugsFront (R.remaining reader.old)
        (T.held texts.now task.now.names.log.now) (T.entered texts.now) (O.contents streams.old.output) (O.contents streams.new.output) }
    ensures part { is_answer result ≡ false → result ≢ Status.CannotWrite → (streams.new.output ≡ streams.old.output)
        ⊎ DebugsPart (R.remaining reader.old) (T.held texts.now task.now.names.log.now) (T.entered texts.now)
        (O.contents streams.old.output) (O.contents streams.new.output) }
    ensures usage { result ≢ Status.Usage }
    ensures only { is_answer result ≡ true → result ≡ Status.Done }
    ensures quiet { is_answer result ≡ true → streams.new.errors ≡ streams.old.errors }
    ensures kept { result ≡ Status.Refused → streams.new.output ≡ streams.old.output }
{
    let mut commands = texts.commands();
    let log = texts.open(task.names.log);
    debug_text(alloc, task, reader, log, &mut commands, streams)
}

/// Tells something of a run of the program that the reader holds: of a log, where one is named, or else of one by one worker.
pub fn tell_as_asked<A: Answering + TapeAnswering, T: Texts, R: Read, O: Write, E: Write>(
    alloc: Global,
    task: &TapeTask<'_>,
    texts: &T,
    reader: &mut R,
    streams: &mut Streams<O, E>,
) -> Status
    ensures done { is_answer result ≡ true → TellsAsAsked A.are A.tells (R.remaining reader.old) (T.held texts.now)
        (O.contents streams.old.output) (O.contents streams.new.output) (option_map (λ it. it.now) task.now.log) result }
    ensures untrapped { result ≢ Status.Trapped }
    ensures told { is_answer result ≡ false → FailsOnTape (option_map (λ it. it.now) task.now.log) task.now.explain task.now.program.now result
        (R.remaining reader.old) (T.held texts.now) (E.contents streams.old.errors) (E.contents streams.new.errors) }
    ensures begun { result ≡ Status.CannotWrite → TellsFrontAsAsked A.are A.tells (R.remaining reader.old) (T.held texts.now)
        (O.contents streams.old.output) (O.contents streams.new.output) (option_map (λ it. it.now) task.now.log) }
    ensures usage { result ≢ Status.Usage }
    ensures quiet { is_answer result ≡ true → streams.new.errors ≡ streams.old.errors }
    ensures kept { is_answer result ≡ false → result ≢ Status.CannotWrite → streams.new.output ≡ streams.old.output }
{
    match task.log {
        None => answer_text::<A, R, O, E>(
            alloc,
            task.program,
            task.explain,
            reader,
            &mut streams.output,
            &mut streams.errors,
        ),
        Some(log) => {
            let names = FileNames {
                program: task.program,
                log,
            };
            let told = LogTask {
                names,
                explain: task.explain,
            };
            tape_log_text::<A, R, T::Reader, O, E>(alloc, &told, reader, texts.open(log), streams)
        }
    }
}
