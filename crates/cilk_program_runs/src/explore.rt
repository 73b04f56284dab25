//! The subcommand `explore`: all outcomes of a program, whatever schedule its workers take, and a log of each.

ghost use Rattle.std.specs.Prelude.{◌≡◌, ◌≢◌, ℕ, List, true, false, IfOk, IfErr, length, option_map};
ghost use Rattle.cilk_program_tapes.specs.commands.Loading.{IsReady};
ghost use Rattle.cilk_program_tapes.specs.commands.Status.{is_answer};
ghost use Rattle.cilk_program_runs.specs.Exploring.{AreKept, Explores, ExploresFront, GivesUpExploring, IsExplored, Keeps, KeepsFront};
ghost use Rattle.cilk_program_runs.specs.Exploring.{exploration_text, logs_of, status_by};
ghost use Rattle.cilk_program_runs.specs.Outcomes.{outcomes_by};
ghost use Rattle.cilk_program_runs.specs.AsAsked.{log_name};
ghost use Rattle.cilk_program_runs.specs.Unexplored.{IsOfLogs, IsUnexplored, status_of};

use crate::explore_task::ExploreTask;
use crate::folder::LogFolder;
use crate::logs::keep_logs;
use crate::outcome::outcome_count;
use crate::outcomes::text_of;
use crate::unexplored::Unexplored;
use cilk_explore::{Exploration, explore};
use cilk_program_tapes::{Failure, Loaded, Status, Streams, read_text, ready_of, write_answer};
use std::alloc::Global;
use std::io::{Read, Write};

/// Tells each outcome that the program has which the reader holds, and where all was looked at a schedule behind which it never ends, if there is one:
/// a log of each goes to the folder, where logs are wanted, and then all of them to the output; or else the line that says why not goes to the errors,
/// and with `task.explain` more of a fault in the program. The answer is made whole before a log is written. A line that cannot be written is lost.
pub fn explore_text<R: Read, F: LogFolder, O: Write, E: Write>(
    alloc: Global,
    task: &ExploreTask<'_>,
    reader: &mut R,
    folder: &mut F,
    streams: &mut Streams<O, E>,
) -> Status
    ensures done { is_answer result ≡ true → Explores task.now.workers task.now.limit (F.wanted folder.old) result (F.stored folder.new)
        (R.remaining reader.old) (O.contents streams.old.output) (O.contents streams.new.output) }
    ensures untrapped { result ≢ Status.Trapped }
    ensures usage { result ≢ Status.Usage }

    // Where there is no answer.
    ensures told { is_answer result ≡ false → GivesUpExploring (F.wanted folder.old) task.now.explain task.now.program.now
        (log_name (option_map (λ it. it.now) task.now.logs)) result
        (R.remaining reader.old) (E.contents streams.old.errors) (E.contents streams.new.errors) }
    ensures begun { result ≡ Status.CannotWrite → (ended : Status) × ExploresFront task.now.workers task.now.limit (F.wanted folder.old) ended
        (F.stored folder.new) (R.remaining reader.old) (O.contents streams.old.output) (O.contents streams.new.output) }

    // What stays as it was.
    ensures quiet { is_answer result ≡ true → streams.new.errors ≡ streams.old.errors }
    ensures kept { is_answer result ≡ false → result ≢ Status.CannotWrite → streams.new.output ≡ streams.old.output }
{
    let bytes = match read_text(alloc, reader) {
        Ok(bytes) => bytes,
        Err(failure) => return failure.report(task.program, &mut streams.errors),
    };
    let text = bytes.as_slice();
    match explore_in(alloc, task, text, folder, &mut streams.output) {
        Ok(status) => status,
        Err(why) => why.tell(alloc, task, text, &mut streams.errors),
    }
}

// Keeps the logs, where they are wanted, and then writes the outcomes.
fn explore_in<F: LogFolder, W: Write>(
    alloc: Global,
    task: &ExploreTask<'_>,
    text: &[u8],
    folder: &mut F,
    out: &mut W,
) -> Result<Status, Unexplored>
    ensures ok { IfOk result (λ status. Keeps (IsExplored task.now.workers task.now.limit status text.now) (F.wanted folder.old) (F.stored folder.new)
        (W.contents out.old) (W.contents out.new)) }
    ensures answer { IfOk result (λ status. is_answer status ≡ true) }
    ensures untrapped { IfOk result (λ status. status ≢ Status.Trapped) }
    ensures told { IfErr result (IsUnexplored (F.wanted folder.old) text.now) }
    ensures begun { IfErr result (λ why. status_of why ≡ Status.CannotWrite → (ended : Status)
        × KeepsFront (IsExplored task.now.workers task.now.limit ended text.now) (F.wanted folder.old) (F.stored folder.new)
        (W.contents out.old) (W.contents out.new)) }
    ensures kept { IfErr result (λ why. status_of why ≢ Status.CannotWrite → out.new ≡ out.old) }
{
    let program = match ready_of(alloc, text) {
        Ok(program) => program,
        Err(failure) => return Err(Unexplored::Program(failure)),
    };
    let answer = answer_of(alloc, task, &program, folder);
    drop(program);
    let Answer { status, text } = match answer {
        Ok(answer) => answer,
        Err(why) => return Err(why),
    };
    match write_answer(out, text.as_slice()) {
        Ok(()) => Ok(status),
        Err(failure) => Err(Unexplored::Program(failure)),
    }
}

/// What is to be written of an exploration.
#[derive(Drop)]
struct Answer {
    status: Status,
    text: Vec<u8>,
}

// Explores the program, makes the text that is to be written, and keeps the logs.
fn answer_of<F: LogFolder>(
    alloc: Global,
    task: &ExploreTask<'_>,
    program: &Loaded,
    folder: &mut F,
) -> Result<Answer, Unexplored>
    ensures ok { IfOk result (λ a. (bytes : List ℕ) → IsReady bytes program.now → (logs : List (List ℕ))
        × IsExplored task.now.workers task.now.limit a.status bytes a.text.items logs
        × (F.wanted folder.old ≡ true → AreKept logs (F.stored folder.new))) }
    ensures answer { IfOk result (λ a. is_answer a.status ≡ true) }
    ensures untrapped { IfOk result (λ a. a.status ≢ Status.Trapped) }
    ensures err { IfErr result (IsOfLogs (F.wanted folder.old)) }
{
    // The words of the command line ask for no other number of workers than there may be, so it is memory that is wanting.
    let Ok(exploration) = explore(alloc, program, task.workers, task.limit) else {
        return Err(Unexplored::Program(Failure::Memory));
    };
    let answer = answer_by(alloc, task, program, &exploration, folder);
    drop(exploration);
    answer
}

// The same of an exploration that was made.
fn answer_by<F: LogFolder>(
    alloc: Global,
    task: &ExploreTask<'_>,
    program: &Loaded,
    exploration: &Exploration,
    folder: &mut F,
) -> Result<Answer, Unexplored>
    ensures status { IfOk result (λ a. a.status ≡ status_by exploration.now.whole (length (outcomes_by exploration.now))) }
    ensures text { IfOk result (λ a. a.text.items
        ≡ exploration_text task.now.workers exploration.now.whole exploration.now.or_more (outcomes_by exploration.now)) }
    ensures kept { IfOk result (λ _. F.wanted folder.old ≡ true
        → AreKept (logs_of program.now task.now.workers (outcomes_by exploration.now)) (F.stored folder.new)) }
    ensures answer { IfOk result (λ a. is_answer a.status ≡ true) }
    ensures untrapped { IfOk result (λ a. a.status ≢ Status.Trapped) }
    ensures err { IfErr result (IsOfLogs (F.wanted folder.old)) }
{
    let status = status_by(exploration);
    let Ok(text) = text_of(alloc, task.workers, exploration) else {
        return Err(Unexplored::Program(Failure::Memory));
    };
    match keep_logs(alloc, program, task.workers, exploration, folder) {
        Ok(()) => Ok(Answer { status, text }),
        Err(why) => {
            drop(text);
            Err(why)
        }
    }
}

// The status that tells of an exploration.
fn status_by(exploration: &Exploration) -> Status
    ensures by { result ≡ status_by exploration.now.whole (length (outcomes_by exploration.now)) }
    ensures answer { is_answer result ≡ true }
    ensures untrapped { result ≢ Status.Trapped }
{
    if !exploration.whole {
        return Status::Limit;
    }
    if outcome_count(exploration) > 1 {
        Status::Several
    } else {
        Status::Done
    }
}
