//! The subcommand `run`: a run by workers or by a seed, its log, and how it ends.

ghost use Rattle.std.specs.Prelude.{◌≡◌, ◌≢◌, ◌<◌, ◌⊎◌, ◌↔◌, ℕ, List, [], length, map, true, false, None, Err, IfOk, IfErr, IfSome, OnOk, OnErr, option_map};
ghost use Rattle.std.specs.Io.KnownBytes.{Appends};
ghost use Rattle.cilk_program_tapes.specs.commands.labelled.Bodies.{label};
ghost use Rattle.cilk_run.specs.Runs.{IsRun as IsRunOf};
ghost use Rattle.cilk_run.specs.choices.Words.{choice_of, end_of};
ghost use Rattle.cilk_program_tapes.specs.replay.log.Text.{log_text};
ghost use Rattle.cilk_program_tapes.specs.replay.log.Words.{log_of};
ghost use Rattle.cilk_run.specs.model.End as model;
ghost use Rattle.cilk_program_tapes.specs.commands.Loading.{IsReady};
ghost use Rattle.cilk_program_tapes.specs.commands.Status.{is_answer};
ghost use Rattle.cilk_program_tapes.specs.GivingUp.{FollowsProgram, GivesUpRun, IsOfRun, NoProgram};
ghost use Rattle.cilk_program_runs.specs.Running.{IsRun, Runs, RunsFront, Stores, StoresFront, status_at};
ghost use Rattle.cilk_program_tapes.specs.commands.Front.{Gains};
ghost use Rattle.cilk_program_tapes.specs.Saying.{ExplainsTrap, IsTrapOf, tells_trap};
ghost use Rattle.cilk_program_runs.specs.AsAsked.{log_name};
ghost use Rattle.cilk_program_tapes.specs.Telling.{status_of};
ghost use Rattle.cilk_run.specs.Drawn.{drawn};

use crate::run_closing::closing_of_run;
use crate::run_task::RunTask;
use crate::store::LogStore;
use cilk_program_tapes::{
    Closing, Ended, Failure, Loaded, RecordFailure, Status, Streams, Trapped, read_text, ready_of,
    write_answer, write_log,
};
use cilk_run::{Open, Run, RunFault, run, run_by_seed};
use std::alloc::Global;
use std::io::{Read, Write};
use std::sync::Wait;
use std::thread::Threads;

/// Runs the program that the reader holds. The log of the run goes to the store, where one is wanted, and then how the run
/// ended to the output, as `main returned 9`; or else the line that says why not goes to the errors. With `task.explain` more
/// goes to the errors: of a fault in the program behind its line, and of a trap behind the answer. Both texts are made whole
/// before the first of them is written. A line that cannot be written is lost.
pub fn run_text<H: Threads + Wait + Sync, R: Read, S: LogStore, O: Write, E: Write>(
    rt: &H,
    alloc: Global,
    task: &RunTask<'_>,
    reader: &mut R,
    store: &mut S,
    streams: &mut Streams<O, E>,
) -> Status
    ensures done { is_answer result ≡ true → Runs task.now.workers task.now.limit task.now.seed result (R.remaining reader.old)
        (S.stored store.old) (S.stored store.new) (O.contents streams.old.output) (O.contents streams.new.output) }
    ensures usage { result ≢ Status.Usage }

    // Where there is no answer.
    ensures told { is_answer result ≡ false
        → GivesUpRun task.now.workers (S.wanted store.old) task.now.explain task.now.program.now (log_name (option_map (λ it. it.now) task.now.log)) result
        (R.remaining reader.old) (E.contents streams.old.errors) (E.contents streams.new.errors) }
    ensures begun { result ≡ Status.CannotWrite → RunsFront task.now.workers task.now.limit task.now.seed (R.remaining reader.old)
        (S.stored store.old) (S.stored store.new) (O.contents streams.old.output) (O.contents streams.new.output) }

    // Behind an answer.
    ensures explained { tells_trap task.now.explain result ≡ true → ExplainsTrap task.now.program.now (R.remaining reader.old)
        (O.contents streams.old.output) (O.contents streams.new.output) (E.contents streams.old.errors) (E.contents streams.new.errors) }

    // What stays as it was.
    ensures quiet { is_answer result ≡ true → tells_trap task.now.explain result ≡ false → streams.new.errors ≡ streams.old.errors }
    ensures kept { is_answer result ≡ false → result ≢ Status.CannotWrite → streams.new.output ≡ streams.old.output }
    ensures unopened { is_answer result ≡ false → result ≢ Status.CannotWrite
        → result ≢ Status.CannotRecord → store.new ≡ store.old }
{
    let names = task.names();
    let bytes = match read_text(alloc, reader) {
        Ok(bytes) => bytes,
        Err(failure) => {
            return RecordFailure::Program(failure).report(&names, &mut streams.errors);
        }
    };
    let text = bytes.as_slice();
    match run_stored(rt, alloc, task, text, store, &mut streams.output) {
        Ok(ended) => {
            let name = task.program;
            ended.tell_trap(alloc, task.explain, name, text, &mut streams.errors);
            ended.status
        }
        Err(why) => why.report_explained(alloc, &names, task.explain, text, &mut streams.errors),
    }
}

// Runs the program, keeps its log where one is wanted, and then writes how it ended.
fn run_stored<H: Threads + Wait + Sync, S: LogStore, W: Write>(
    rt: &H,
    alloc: Global,
    task: &RunTask<'_>,
    text: &[u8],
    store: &mut S,
    out: &mut W,
) -> Result<Ended, RecordFailure>
    ensures ok { IfOk result (λ ended. Stores (IsRun task.now.workers task.now.limit task.now.seed ended.status text.now)
        (S.stored store.old) (S.stored store.new) (W.contents out.old) (W.contents out.new)) }
    ensures answer { IfOk result (λ ended. is_answer ended.status ≡ true) }
    ensures trap { IfOk result (λ ended. Gains (λ answer. IsTrapOf answer ended.trap) (W.contents out.old) (W.contents out.new)) }
    ensures declined { IfErr result (λ why. status_of why ≡ Status.Refused → NoProgram text.now [] why) }
    ensures follows { IfErr result (FollowsProgram text.now) }
    ensures of_run { IfErr result (IsOfRun task.now.workers (S.wanted store.old)) }
    ensures begun { IfErr result (λ why. status_of why ≡ Status.CannotWrite → (status : Status)
        × StoresFront (IsRun task.now.workers task.now.limit task.now.seed status text.now)
        (S.stored store.old) (S.stored store.new) (W.contents out.old) (W.contents out.new)) }
    ensures kept { IfErr result (λ why. status_of why ≢ Status.CannotWrite → out.new ≡ out.old) }
    ensures unopened { IfErr result (λ why. status_of why ≢ Status.CannotWrite
        → status_of why ≢ Status.CannotRecord → store.new ≡ store.old) }
{
    let program = match ready_of(alloc, text) {
        Ok(program) => program,
        Err(failure) => return Err(RecordFailure::Program(failure)),
    };
    // Told before the run: behind it the log would take the place of the program.
    if !store.is_apart() {
        drop(program);
        return Err(RecordFailure::CannotStore);
    }
    let texts = match run_answered(rt, alloc, task, program, store.is_wanted()) {
        Ok(texts) => texts,
        Err(why) => return Err(why),
    };
    match keep(store, texts.log.as_slice()) {
        Ok(()) => {}
        Err(()) => {
            drop(texts);
            return Err(RecordFailure::CannotStore);
        }
    }
    match write_answer(out, texts.answer.as_slice()) {
        Ok(()) => Ok(Ended {
            status: texts.status,
            trap: texts.trap,
        }),
        Err(failure) => Err(RecordFailure::Program(failure)),
    }
}

// Keeps the log, where one is wanted.
fn keep<S: LogStore>(store: &mut S, log: &[u8]) -> Result<(), ()>
    ensures kept { OnOk result ((text : List ℕ) → (S.stored store.old ≢ None → log.now ≡ text)
        → Appends (S.stored store.old) (S.stored store.new) text) }
    ensures wanted { OnErr result (S.wanted store.old ≡ true) }
{
    if !store.is_wanted() {
        return Ok(());
    }
    match store.store(log) {
        Ok(()) => Ok(()),
        Err(_) => Err(()),
    }
}

/// What is to be written of a run.
#[derive(Drop)]
struct RunAnswer {
    status: Status,
    trap: Option<Trapped>,
    /// Empty where no log is wanted.
    log: Vec<u8>,
    answer: Vec<u8>,
}

// Runs the program, and makes the texts that are to be written of the run.
fn run_answered<H: Threads + Wait + Sync>(
    rt: &H,
    alloc: Global,
    task: &RunTask<'_>,
    program: Loaded,
    is_logged: bool,
) -> Result<RunAnswer, RecordFailure>
    ensures ok { IfOk result (λ texts. (bytes : List ℕ) → IsReady bytes program → (log : List ℕ)
        × IsRun task.now.workers task.now.limit task.now.seed texts.status bytes log texts.answer.items
        × (is_logged ≡ true → texts.log.items ≡ log)) }
    ensures answer { IfOk result (λ texts. is_answer texts.status ≡ true) }
    ensures trap { IfOk result (λ texts. IsTrapOf texts.answer.items texts.trap) }
    ensures err { IfErr result (λ why. (status_of why ≢ Status.Refused) × (status_of why ≢ Status.CannotWrite)) }
    ensures of_run { IfErr result (IsOfRun task.now.workers is_logged) }
{
    let ended = match made(rt, alloc, program, task) {
        Ok(ended) => ended,
        Err(RunFault::Memory) => return Err(RecordFailure::Program(Failure::Memory)),
        // No words bring `Workers`: the command line takes 1 to 64 alone.
        Err(RunFault::Start | RunFault::Workers) => return Err(RecordFailure::CannotStart),
    };
    let texts = answer_of(alloc, &ended, is_logged);
    drop(ended);
    texts
}

// The run of the workers, or, with a seed, the one that it names.
fn made<H: Threads + Wait + Sync>(
    rt: &H,
    alloc: Global,
    program: Loaded,
    task: &RunTask<'_>,
) -> Result<Run, RunFault>
    ensures ok { IfOk result (λ r. IsRunOf program task.now.workers task.now.limit r) }
    ensures named { IfOk result (λ r. IfSome task.now.seed
        (λ s. map choice_of r.log.choices ≡ drawn (label program) task.now.workers s task.now.limit)) }
    ensures workers { (result ≡ Err RunFault.Workers) ↔ ((task.now.workers ≡ 0) ⊎ (64 < task.now.workers)) }
    ensures alone { task.now.workers ≡ 1 → result ≢ Err RunFault.Start }
{
    match task.seed {
        None => run(rt, alloc, program, task.workers, task.limit, &Open),
        Some(seed) => run_by_seed(alloc, program, task.workers, u64::from(seed), task.limit),
    }
}

// What is to be written of a run that was made.
fn answer_of(alloc: Global, run: &Run, is_logged: bool) -> Result<RunAnswer, RecordFailure>
    ensures status { IfOk result (λ texts. texts.status ≡ status_at (end_of run.now.end)) }
    ensures text { IfOk result (λ texts.
        texts.answer.items ≡ model.ending run.now.output (end_of run.now.end) (length run.now.log.choices)) }
    ensures log { is_logged ≡ true → IfOk result (λ texts. texts.log.items ≡ log_text (log_of run.now.log)) }
    ensures answer { IfOk result (λ texts. is_answer texts.status ≡ true) }
    ensures trap { IfOk result (λ texts. IsTrapOf texts.answer.items texts.trap) }
    ensures err { IfErr result (λ why. why ≡ RecordFailure.Program Failure.Memory) }
{
    let Closing { status, trap, text } = match closing_of_run(alloc, run) {
        Ok(closing) => closing,
        Err(failure) => return Err(RecordFailure::Program(failure)),
    };
    if !is_logged {
        return Ok(RunAnswer {
            status,
            trap,
            log: Vec::new(alloc),
            answer: text,
        });
    }
    match write_log(alloc, &run.log) {
        Ok(log) => Ok(RunAnswer {
            status,
            trap,
            log,
            answer: text,
        }),
        // The words of the command line ask for no more choices than a log tells, so it is memory that is wanting.
        Err(_) => {
            drop(text);
            Err(RecordFailure::Program(Failure::Memory))
        }
    }
}
