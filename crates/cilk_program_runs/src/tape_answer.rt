//! What the subcommands have in common that tell something of all choices of a schedule: of a log, or of a run by one worker.

ghost use Rattle.std.specs.Prelude.{◌≡◌, ◌≢◌, true, false, ℕ, List, [], Option, IfOk, IfErr, IfSome, string_bytes};
ghost use Rattle.cilk_program_tapes.specs.commands.Front.{Gains, GainsFront};
ghost use Rattle.cilk_program_tapes.specs.commands.Held.{Held};
ghost use Rattle.cilk_program_tapes.specs.commands.Loading.{IsReady, Unready};
ghost use Rattle.cilk_program_tapes.specs.commands.Status.{is_answer, status_of as status_of_program};
ghost use Rattle.cilk_program_tapes.specs.commands.ProgramText.{program_text};
ghost use Rattle.cilk_program_tapes.specs.replay.ReplayFaults.{IsNamedFaultOf};
ghost use Rattle.cilk_program_tapes.specs.replay.Tape.{Tape, tape_of};
ghost use Rattle.cilk_program_tapes.specs.replay.log.Naming.{is_of};
ghost use Rattle.cilk_program_tapes.specs.GivingUp.{FollowsProgram, GivesUp};
ghost use Rattle.cilk_program_runs.specs.OnTapes.{IsOfLog, IsOfRun, TellsLog, TellsLogFront};
ghost use Rattle.cilk_program_tapes.specs.Saying.{IsSaid};
ghost use Rattle.cilk_program_tapes.specs.Taped.{Declines};
ghost use Rattle.cilk_program_tapes.specs.Telling.{status_of as status_of_record};

use cilk_program_tapes::{
    Answered, Failure, Loaded, Log, LogTask, Note, RecordFailure, ReplayFault, Status, Streams,
    Taped, read_text, ready_of, tape_in, write_answer,
};
use cilk_run::{Run, run_by_seed};
use std::alloc::{AllocError, Global};
use std::io::{Read, Write};

// A run of which no log is given makes at most so many choices, as one by `run` does where nothing else is said.
const LIMIT: u32 = 1_000_000;

/// What is told of all choices of a schedule.
pub trait TapeAnswering {
    ghost use Rattle.cilk_program_tapes.specs.commands.declared.status.Status.{Status};

    // What is told of a tape, each text with its status.
    ghost tells: { Tape → Status → List ℕ → Type 0 };

    /// What is told of the choices of a log, or why they cannot be made again. That the log is of another program is told first, and then what
    /// `cilk_log_replay::play` tells.
    fn tell(alloc: Global, program: Loaded, log: &Log) -> Result<Answered, ReplayFault>
        ensures ok { IfOk result (λ told. tells (tape_of program log.now.workers log.now.choices) told.status (string_bytes told.text)) }
        ensures answer { IfOk result (λ told. is_answer told.status ≡ true) }
        ensures untrapped { IfOk result (λ told. told.status ≢ Status.Trapped) }
        ensures own { IfOk result (λ _. is_of log.now.program (program_text program) ≡ true) }
        ensures told { IfErr result (IsNamedFaultOf log.now.program (tape_of program log.now.workers log.now.choices)) };
}

/// What is told of a run of the program that these bytes are, by one worker and of at most 1,000,000 choices, or why there is none.
pub fn run_told<A: TapeAnswering>(alloc: Global, text: &[u8]) -> Result<Answered, Failure>
    ensures ok { IfOk result (λ told. IsOfRun A.tells text.now told.status (string_bytes told.text)) }
    ensures answer { IfOk result (λ told. is_answer told.status ≡ true) }
    ensures untrapped { IfOk result (λ told. told.status ≢ Status.Trapped) }
    ensures declined { IfErr result (λ why. status_of_program why ≡ Status.Refused → Unready text.now why) }
    ensures reads { IfErr result (λ why. status_of_program why ≢ Status.CannotWrite) }
{
    let program = match ready_of(alloc, text) {
        Ok(program) => program,
        Err(failure) => return Err(failure),
    };
    match alone::<A>(alloc, program) {
        Ok(told) => Ok(told),
        Err(_) => Err(Failure::Memory),
    }
}

// That of a run by one worker.
fn alone<A: TapeAnswering>(alloc: Global, program: Loaded) -> Result<Answered, AllocError>
    ensures ok { IfOk result (λ told. (text : List ℕ) → IsReady text program → IsOfRun A.tells text told.status (string_bytes told.text)) }
    ensures answer { IfOk result (λ told. is_answer told.status ≡ true) }
    ensures untrapped { IfOk result (λ told. told.status ≢ Status.Trapped) }
{
    let Ok(copy) = program.copy() else {
        drop(program);
        return Err(AllocError);
    };
    match run_by_seed(alloc, copy, 1, 0, LIMIT) {
        Ok(run) => told_of_run::<A>(alloc, program, run),
        Err(_) => {
            drop(program);
            Err(AllocError)
        }
    }
}

// The schedule is the program's own, so only memory can be wanting.
fn told_of_run<A: TapeAnswering>(
    alloc: Global,
    program: Loaded,
    run: Run,
) -> Result<Answered, AllocError>
    ensures ok { IfOk result (λ told. A.tells (tape_of program run.log.workers run.log.choices) told.status (string_bytes told.text)) }
    ensures answer { IfOk result (λ told. is_answer told.status ≡ true) }
    ensures untrapped { IfOk result (λ told. told.status ≢ Status.Trapped) }
{
    let told = A::tell(alloc, program, &run.log);
    drop(run);
    match told {
        Ok(told) => Ok(told),
        Err(_) => Err(AllocError),
    }
}

/// Writes what is told of a recorded schedule of the program that the reader holds to the output, or else the line that says why not to the errors,
/// as `replay_text` tells it.
pub fn tape_log_text<A: TapeAnswering, R: Read, L: Read + Drop, O: Write, E: Write>(
    alloc: Global,
    task: &LogTask<'_>,
    reader: &mut R,
    log: Option<L>,
    streams: &mut Streams<O, E>,
) -> Status
    ensures done { (held : Option (List ℕ)) → IfSome log (λ log. L.remaining log ≡ held)
        → is_answer result ≡ true → TellsLog A.tells (R.remaining reader.old) held
        (O.contents streams.old.output) (O.contents streams.new.output) result }
    ensures untrapped { result ≢ Status.Trapped }
    ensures usage { result ≢ Status.Usage }

    // Where there is no answer.
    ensures told { (held : Option (List ℕ)) → IfSome log (λ log. L.remaining log ≡ held)
        → is_answer result ≡ false → GivesUp Declines task.now.explain task.now.names.program.now task.now.names.log.now result
        (R.remaining reader.old) held (E.contents streams.old.errors) (E.contents streams.new.errors) }
    ensures begun { (held : Option (List ℕ)) → IfSome log (λ log. L.remaining log ≡ held)
        → result ≡ Status.CannotWrite → TellsLogFront A.tells (R.remaining reader.old) held
        (O.contents streams.old.output) (O.contents streams.new.output) }

    // What stays as it was.
    ensures quiet { is_answer result ≡ true → streams.new.errors ≡ streams.old.errors }
    ensures kept { is_answer result ≡ false → result ≢ Status.CannotWrite → streams.new.output ≡ streams.old.output }
{
    let bytes = match read_text(alloc, reader) {
        Ok(bytes) => bytes,
        Err(failure) => {
            return RecordFailure::Program(failure).report(&task.names, &mut streams.errors);
        }
    };
    let text = bytes.as_slice();
    let mut note = Note::new(alloc, task.explain);
    match tell_log::<A, L, O>(alloc, text, log, &mut note, &mut streams.output) {
        Ok(status) => status,
        Err(why) => why.explain_log(alloc, task, text, note.text.as_str(), &mut streams.errors),
    }
}

// What is told of a choice that is not possible is noted.
fn tell_log<A: TapeAnswering, L: Read + Drop, W: Write>(
    alloc: Global,
    text: &[u8],
    log: Option<L>,
    note: &mut Note,
    out: &mut W,
) -> Result<Status, RecordFailure>
    requires { string_bytes note.old.text ≡ [] }
    ensures ok { (held : Option (List ℕ)) → IfSome log (λ log. L.remaining log ≡ held)
        → IfOk result (λ status. Gains (λ answer. Held held (λ bytes. IsOfLog A.tells text.now bytes status answer))
        (W.contents out.old) (W.contents out.new)) }
    ensures answer { IfOk result (λ status. is_answer status ≡ true) }
    ensures untrapped { IfOk result (λ status. status ≢ Status.Trapped) }
    ensures said { (held : Option (List ℕ)) → IfSome log (λ log. L.remaining log ≡ held)
        → IfErr result (λ why. IsSaid note.old.is_wanted held why (string_bytes note.new.text)) }
    ensures declined { (held : Option (List ℕ)) → IfSome log (λ log. L.remaining log ≡ held)
        → IfErr result (λ why. status_of_record why ≡ Status.Refused → Held held (λ bytes. Declines text.now bytes why)) }
    ensures follows { IfErr result (FollowsProgram text.now) }
    ensures begun { (held : Option (List ℕ)) → IfSome log (λ log. L.remaining log ≡ held)
        → IfErr result (λ why. status_of_record why ≡ Status.CannotWrite
        → GainsFront (λ answer. Held held (λ bytes. (status : Status) × IsOfLog A.tells text.now bytes status answer))
        (W.contents out.old) (W.contents out.new)) }
    ensures kept { IfErr result (λ why. status_of_record why ≢ Status.CannotWrite → out.new ≡ out.old) }
{
    let told = match log_told::<A, L>(alloc, text, log, note) {
        Ok(told) => told,
        Err(why) => return Err(why),
    };
    match write_answer(out, told.text.as_bytes()) {
        Ok(()) => Ok(told.status),
        Err(failure) => Err(RecordFailure::Program(failure)),
    }
}

fn log_told<A: TapeAnswering, L: Read + Drop>(
    alloc: Global,
    text: &[u8],
    log: Option<L>,
    note: &mut Note,
) -> Result<Answered, RecordFailure>
    requires { string_bytes note.old.text ≡ [] }
    ensures ok { (held : Option (List ℕ)) → IfSome log (λ log. L.remaining log ≡ held)
        → IfOk result (λ told. Held held (λ bytes. IsOfLog A.tells text.now bytes told.status (string_bytes told.text))) }
    ensures said { (held : Option (List ℕ)) → IfSome log (λ log. L.remaining log ≡ held)
        → IfErr result (λ why. IsSaid note.old.is_wanted held why (string_bytes note.new.text)) }
    ensures answer { IfOk result (λ told. is_answer told.status ≡ true) }
    ensures untrapped { IfOk result (λ told. told.status ≢ Status.Trapped) }
    ensures silent { IfOk result (λ _. string_bytes note.new.text ≡ []) }
    ensures declined { (held : Option (List ℕ)) → IfSome log (λ log. L.remaining log ≡ held)
        → IfErr result (λ why. status_of_record why ≡ Status.Refused → Held held (λ bytes. Declines text.now bytes why)) }
    ensures follows { IfErr result (FollowsProgram text.now) }
    ensures reads { IfErr result (λ why. status_of_record why ≢ Status.CannotWrite) }
{
    let Taped { program, log } = match tape_in(alloc, text, log) {
        Ok(taped) => taped,
        Err(why) => return Err(why),
    };
    match A::tell(alloc, program, &log) {
        Ok(told) => Ok(told),
        Err(fault) => {
            note.take_down(alloc, &log, &fault);
            Err(RecordFailure::Replay(fault))
        }
    }
}
