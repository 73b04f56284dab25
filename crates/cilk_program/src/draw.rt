//! The subcommand `draw`: a picture of a recorded schedule, as an SVG or in lines.

ghost use Rattle.std.specs.Prelude.{◌≡◌, ◌≢◌, true, false, ℕ, List, [], Option, Ok, IfOk, IfErr, IfSome, OnOk, string_bytes};
ghost use Rattle.cilk_program_runs.specs.commands.Front.{Gains, GainsFront};
ghost use Rattle.cilk_program_runs.specs.commands.Held.{Held};
ghost use Rattle.cilk_program_runs.specs.commands.Status.{is_answer};
ghost use Rattle.cilk_program_runs.specs.commands.ProgramText.{program_text};
ghost use Rattle.cilk_draw.specs.DrawFaults.{IsDrawFaultOf};
ghost use Rattle.cilk_draw.specs.replay.Tape.{IsPlayable, tape_of};
ghost use Rattle.cilk_draw.specs.replay.log.Naming.{is_of};
ghost use Rattle.cilk_draw.specs.replay.log.Reading.{log_read};
ghost use Rattle.cilk_draw.specs.replay.log.Words.{log_of};
ghost use Rattle.cilk_program_runs.specs.GivingUp.{FollowsProgram, GivesUp};
ghost use Rattle.cilk_program.specs.Picturing.{DeclinesToDraw, Depicts, DepictsFront, IsDrawable, failure_of};
ghost use Rattle.cilk_program_runs.specs.Saying.{IsSaid};
ghost use Rattle.cilk_program_runs.specs.Telling.{status_of};

use crate::draw_task::DrawTask;
use crate::marking::mark_races;
use cilk_draw::{DrawFault, Excerpt, Log, Memory, Picture, ReplayFault, draw, put_lines, put_svg};
use cilk_program_runs::{
    FileNames, Loaded, Note, RecordFailure, Status, Streams, Taped, Texts, read_text, tape_in,
    write_answer,
};
use std::alloc::Global;
use std::io::{Read, Write};

/// Depicts a log, of the program that the reader holds.
pub(crate) fn draw_named<T: Texts, R: Read, O: Write, E: Write>(
    alloc: Global,
    task: &DrawTask<'_>,
    texts: &T,
    reader: &mut R,
    streams: &mut Streams<O, E>,
) -> Status
    ensures done { is_answer result ≡ true → Depicts (R.remaining reader.old)
        (T.held texts.now task.now.log.names.log.now) (O.contents streams.old.output) (O.contents streams.new.output) }
    ensures only { is_answer result ≡ true → result ≡ Status.Done }
    ensures told { is_answer result ≡ false
        → GivesUp DeclinesToDraw task.now.log.explain task.now.log.names.program.now task.now.log.names.log.now result
        (R.remaining reader.old) (T.held texts.now task.now.log.names.log.now) (E.contents streams.old.errors) (E.contents streams.new.errors) }
    ensures begun { result ≡ Status.CannotWrite → DepictsFront (R.remaining reader.old)
        (T.held texts.now task.now.log.names.log.now) (O.contents streams.old.output) (O.contents streams.new.output) }
    ensures usage { result ≢ Status.Usage }
    ensures quiet { is_answer result ≡ true → streams.new.errors ≡ streams.old.errors }
    ensures kept { is_answer result ≡ false → result ≢ Status.CannotWrite → streams.new.output ≡ streams.old.output }
{
    let log = texts.open(task.log.names.log);
    draw_text(alloc, task, reader, log, streams)
}

// Writes a picture of a recorded schedule of the program that the reader holds to the output, or else the line that says why not to the errors,
// as `replay_text` tells it, and last that the picture would be too long.
fn draw_text<R: Read, L: Read + Drop, O: Write, E: Write>(
    alloc: Global,
    task: &DrawTask<'_>,
    reader: &mut R,
    log: Option<L>,
    streams: &mut Streams<O, E>,
) -> Status
    ensures done { (held : Option (List ℕ)) → IfSome log (λ log. L.remaining log ≡ held)
        → is_answer result ≡ true → Depicts (R.remaining reader.old) held (O.contents streams.old.output) (O.contents streams.new.output) }
    ensures only { is_answer result ≡ true → result ≡ Status.Done }
    ensures usage { result ≢ Status.Usage }

    // Where there is no answer.
    ensures told { (held : Option (List ℕ)) → IfSome log (λ log. L.remaining log ≡ held)
        → is_answer result ≡ false → GivesUp DeclinesToDraw task.now.log.explain task.now.log.names.program.now task.now.log.names.log.now result
        (R.remaining reader.old) held (E.contents streams.old.errors) (E.contents streams.new.errors) }
    ensures begun { (held : Option (List ℕ)) → IfSome log (λ log. L.remaining log ≡ held)
        → result ≡ Status.CannotWrite → DepictsFront (R.remaining reader.old) held (O.contents streams.old.output) (O.contents streams.new.output) }

    // What stays as it was.
    ensures quiet { is_answer result ≡ true → streams.new.errors ≡ streams.old.errors }
    ensures kept { is_answer result ≡ false → result ≢ Status.CannotWrite → streams.new.output ≡ streams.old.output }
{
    let bytes = match read_text(alloc, reader) {
        Ok(bytes) => bytes,
        Err(failure) => {
            return RecordFailure::Program(failure).report(&task.log.names, &mut streams.errors);
        }
    };
    let text = bytes.as_slice();
    let mut note = Note::new(alloc, task.log.explain);
    match draw_log(alloc, task, text, log, &mut note, &mut streams.output) {
        Ok(()) => Status::Done,
        Err(why) => why.explain_log(
            alloc,
            &task.log,
            text,
            note.text.as_str(),
            &mut streams.errors,
        ),
    }
}

// What is told of a choice that is not possible is noted.
fn draw_log<L: Read + Drop, W: Write>(
    alloc: Global,
    task: &DrawTask<'_>,
    text: &[u8],
    log: Option<L>,
    note: &mut Note,
    out: &mut W,
) -> Result<(), RecordFailure>
    requires { string_bytes note.old.text ≡ [] }
    ensures ok { (held : Option (List ℕ)) → IfSome log (λ log. L.remaining log ≡ held)
        → OnOk result (Gains (λ answer. Held held (λ bytes. IsDrawable text.now bytes)) (W.contents out.old) (W.contents out.new)) }
    ensures said { (held : Option (List ℕ)) → IfSome log (λ log. L.remaining log ≡ held)
        → IfErr result (λ why. IsSaid note.old.is_wanted held why (string_bytes note.new.text)) }
    ensures declined { (held : Option (List ℕ)) → IfSome log (λ log. L.remaining log ≡ held)
        → IfErr result (λ why. status_of why ≡ Status.Refused → Held held (λ bytes. DeclinesToDraw text.now bytes why)) }
    ensures follows { IfErr result (FollowsProgram text.now) }
    ensures begun { (held : Option (List ℕ)) → IfSome log (λ log. L.remaining log ≡ held)
        → IfErr result (λ why. status_of why ≡ Status.CannotWrite
        → GainsFront (λ answer. Held held (λ bytes. IsDrawable text.now bytes)) (W.contents out.old) (W.contents out.new)) }
    ensures kept { IfErr result (λ why. status_of why ≢ Status.CannotWrite → out.new ≡ out.old) }
{
    let answer = match log_depicted(alloc, task, text, log, note) {
        Ok(answer) => answer,
        Err(why) => return Err(why),
    };
    match write_answer(out, answer.as_bytes()) {
        Ok(()) => Ok(()),
        Err(failure) => Err(RecordFailure::Program(failure)),
    }
}

fn log_depicted<L: Read + Drop>(
    alloc: Global,
    task: &DrawTask<'_>,
    text: &[u8],
    log: Option<L>,
    note: &mut Note,
) -> Result<String, RecordFailure>
    requires { string_bytes note.old.text ≡ [] }
    ensures ok { (held : Option (List ℕ)) → IfSome log (λ log. L.remaining log ≡ held)
        → IfOk result (λ _. Held held (λ bytes. IsDrawable text.now bytes)) }
    ensures said { (held : Option (List ℕ)) → IfSome log (λ log. L.remaining log ≡ held)
        → IfErr result (λ why. IsSaid note.old.is_wanted held why (string_bytes note.new.text)) }
    ensures silent { IfOk result (λ _. string_bytes note.new.text ≡ []) }
    ensures declined { (held : Option (List ℕ)) → IfSome log (λ log. L.remaining log ≡ held)
        → IfErr result (λ why. status_of why ≡ Status.Refused → Held held (λ bytes. DeclinesToDraw text.now bytes why)) }
    ensures follows { IfErr result (FollowsProgram text.now) }
    ensures reads { IfErr result (λ why. status_of why ≢ Status.CannotWrite) }
{
    let Taped { program, log } = match tape_in(alloc, text, log) {
        Ok(taped) => taped,
        Err(why) => return Err(why),
    };
    match depicted(alloc, task, program, &log) {
        Ok(answer) => Ok(answer),
        Err(fault) => Err(note_fault(alloc, &log, fault, note)),
    }
}

// What is to be told behind the line of a fault is noted.
fn note_fault(alloc: Global, log: &Log, fault: DrawFault, note: &mut Note) -> RecordFailure
    requires { string_bytes note.old.text ≡ [] }
    ensures is { result ≡ failure_of fault }
    ensures said { (held : Option (List ℕ)) → Held held (λ bytes. log_read bytes ≡ Ok (log_of log.now))
        → IsSaid note.old.is_wanted held result (string_bytes note.new.text) }
{
    match fault {
        DrawFault::Replay(found) => {
            note.take_down(alloc, log, &found);
            RecordFailure::Replay(found)
        }
        DrawFault::TooLong => RecordFailure::TooLong,
    }
}

// The picture of a part of a recorded schedule.
fn depicted(
    alloc: Global,
    task: &DrawTask<'_>,
    program: Loaded,
    log: &Log,
) -> Result<String, DrawFault>
    ensures own { IfOk result (λ _. is_of log.now.program (program_text program) ≡ true) }
    ensures whole { IfOk result (λ _. IsPlayable (tape_of program log.now.workers log.now.choices)) }
    ensures told { IfErr result (IsDrawFaultOf log.now.program (tape_of program log.now.workers log.now.choices)) }
{
    let picture = match draw(alloc, &program, log, excerpt_of(task)) {
        Ok(picture) => picture,
        Err(fault) => {
            drop(program);
            return Err(fault);
        }
    };
    match marked(alloc, task, program, log, picture) {
        Ok(text) => Ok(text),
        Err(_) => Err(DrawFault::Replay(ReplayFault::Memory)),
    }
}

fn excerpt_of(task: &DrawTask<'_>) -> Excerpt {
    Excerpt {
        from: u64::from(task.from),
        to: u64::from(task.to),
    }
}

// The text of a picture, with its races.
fn marked(
    alloc: Global,
    task: &DrawTask<'_>,
    program: Loaded,
    log: &Log,
    picture: Picture,
) -> Result<String, Memory> {
    let mut picture = picture;
    let text = match mark_races(alloc, program, log, excerpt_of(task), &mut picture) {
        Ok(()) => written(alloc, task, &picture),
        Err(memory) => Err(memory),
    };
    drop(picture);
    text
}

fn written(alloc: Global, task: &DrawTask<'_>, picture: &Picture) -> Result<String, Memory> {
    let FileNames { program, log } = task.log.names;
    let title = format!(in alloc; "{program}, {log}")?;
    let mut out = String::new(alloc);
    if task.in_lines {
        put_lines(alloc, &mut out, title.as_str(), picture)?;
    } else {
        put_svg(alloc, &mut out, title.as_str(), picture)?;
    }
    Ok(out)
}
