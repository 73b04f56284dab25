//! The subcommand `replay`: the choices of a recorded schedule made again, and how they end.

ghost use Rattle.std.specs.Prelude.{◌≡◌, ◌≢◌, true, false, ℕ, List, [], Option, IfSome, IfOk, IfErr, string_bytes};
ghost use Rattle.cilk_commands.specs.Front.{Gains, GainsFront};
ghost use Rattle.cilk_commands.specs.Held.{Held};
ghost use Rattle.cilk_commands.specs.Status.{is_answer};
ghost use Rattle.cilk_program_tapes.specs.GivingUp.{FollowsProgram, GivesUp};
ghost use Rattle.cilk_program_tapes.specs.Taped.{Declines};
ghost use Rattle.cilk_program_tapes.specs.Telling.{status_of};
ghost use Rattle.cilk_program_tapes.specs.Replaying.{IsReplayed, Replays, ReplaysFront};
ghost use Rattle.cilk_program_tapes.specs.Saying.{ExplainsTrap, IsSaid, IsTrapOf, tells_trap};

use crate::closing::{Closing, closing_of};
use crate::failure::RecordFailure;
use crate::log_task::LogTask;
use crate::note::Note;
use crate::streams::Streams;
use crate::taped::{Taped, tape_in};
use crate::trapped::Ended;
use cilk_commands::{Status, read_text, write_answer};
use cilk_log_replay::play_all;
use std::alloc::Global;
use std::io::{Read, Write};

/// Makes the choices of a recorded schedule again, from the start of the program that the reader holds, and writes how the
/// program stands behind the last one to the output, as `main returned 9`, or else the line that says why not to the errors. There
/// is no reader of the schedule where it cannot be opened, which is told once the program can be run. The answer is made
/// whole before any of it is written. With `task.explain` more goes to the errors: of a fault in the program, of a choice that is
/// not possible, and of a trap behind the answer. A line that cannot be written is lost.
pub fn replay_text<R: Read, L: Read + Drop, O: Write, E: Write>(
    alloc: Global,
    task: &LogTask<'_>,
    reader: &mut R,
    log: Option<L>,
    streams: &mut Streams<O, E>,
) -> Status
    ensures done { (held : Option (List ℕ)) → IfSome log (λ log. L.remaining log ≡ held)
        → is_answer result ≡ true → Replays result (R.remaining reader.old) held (O.contents streams.old.output) (O.contents streams.new.output) }
    ensures usage { result ≢ Status.Usage }

    // Where there is no answer.
    ensures told { (held : Option (List ℕ)) → IfSome log (λ log. L.remaining log ≡ held)
        → is_answer result ≡ false → GivesUp Declines task.now.explain task.now.names.program.now task.now.names.log.now result
        (R.remaining reader.old) held (E.contents streams.old.errors) (E.contents streams.new.errors) }
    ensures begun { (held : Option (List ℕ)) → IfSome log (λ log. L.remaining log ≡ held)
        → result ≡ Status.CannotWrite → ReplaysFront (R.remaining reader.old) held (O.contents streams.old.output) (O.contents streams.new.output) }

    // Behind an answer.
    ensures explained { tells_trap task.now.explain result ≡ true → ExplainsTrap task.now.names.program.now (R.remaining reader.old)
        (O.contents streams.old.output) (O.contents streams.new.output) (E.contents streams.old.errors) (E.contents streams.new.errors) }

    // What stays as it was.
    ensures quiet { is_answer result ≡ true → tells_trap task.now.explain result ≡ false → streams.new.errors ≡ streams.old.errors }
    ensures kept { is_answer result ≡ false → result ≢ Status.CannotWrite → streams.new.output ≡ streams.old.output }
{
    let bytes = match read_text(alloc, reader) {
        Ok(bytes) => bytes,
        Err(failure) => {
            return RecordFailure::Program(failure).report(&task.names, &mut streams.errors);
        }
    };
    let text = bytes.as_slice();
    let mut note = Note::new(alloc, task.explain);
    match replay(alloc, text, log, &mut note, &mut streams.output) {
        Ok(ended) => {
            let name = task.names.program;
            ended.tell_trap(alloc, task.explain, name, text, &mut streams.errors);
            ended.status
        }
        Err(why) => why.explain_log(alloc, task, text, note.text.as_str(), &mut streams.errors),
    }
}

// What is told of a choice that is not possible is noted.
fn replay<L: Read + Drop, W: Write>(
    alloc: Global,
    text: &[u8],
    log: Option<L>,
    note: &mut Note,
    out: &mut W,
) -> Result<Ended, RecordFailure>
    requires { string_bytes note.old.text ≡ [] }
    ensures ok { (held : Option (List ℕ)) → IfSome log (λ log. L.remaining log ≡ held)
        → IfOk result (λ ended. Gains (λ answer. Held held (λ bytes. IsReplayed ended.status text.now bytes answer))
        (W.contents out.old) (W.contents out.new)) }
    ensures answer { IfOk result (λ ended. is_answer ended.status ≡ true) }
    ensures trap { IfOk result (λ ended. Gains (λ answer. IsTrapOf answer ended.trap) (W.contents out.old) (W.contents out.new)) }
    ensures said { (held : Option (List ℕ)) → IfSome log (λ log. L.remaining log ≡ held)
        → IfErr result (λ why. IsSaid note.old.is_wanted held why (string_bytes note.new.text)) }
    ensures declined { (held : Option (List ℕ)) → IfSome log (λ log. L.remaining log ≡ held)
        → IfErr result (λ why. status_of why ≡ Status.Refused → Held held (λ bytes. Declines text.now bytes why)) }
    ensures follows { IfErr result (FollowsProgram text.now) }
    ensures begun { (held : Option (List ℕ)) → IfSome log (λ log. L.remaining log ≡ held)
        → IfErr result (λ why. status_of why ≡ Status.CannotWrite → (status : Status)
        × GainsFront (λ answer. Held held (λ bytes. IsReplayed status text.now bytes answer))
        (W.contents out.old) (W.contents out.new)) }
    ensures kept { IfErr result (λ why. status_of why ≢ Status.CannotWrite → out.new ≡ out.old) }
{
    let closing = match replayed(alloc, text, log, note) {
        Ok(closing) => closing,
        Err(why) => return Err(why),
    };
    match write_answer(out, closing.text.as_slice()) {
        Ok(()) => Ok(Ended {
            status: closing.status,
            trap: closing.trap,
        }),
        Err(failure) => Err(RecordFailure::Program(failure)),
    }
}

// How the program stands behind the last choice.
fn replayed<L: Read + Drop>(
    alloc: Global,
    text: &[u8],
    log: Option<L>,
    note: &mut Note,
) -> Result<Closing, RecordFailure>
    requires { string_bytes note.old.text ≡ [] }
    ensures ok { (held : Option (List ℕ)) → IfSome log (λ log. L.remaining log ≡ held)
        → IfOk result (λ closing. Held held (λ bytes.
        IsReplayed closing.status text.now bytes closing.text.items)) }
    ensures answer { IfOk result (λ closing. is_answer closing.status ≡ true) }
    ensures trap { IfOk result (λ closing. IsTrapOf closing.text.items closing.trap) }
    ensures said { (held : Option (List ℕ)) → IfSome log (λ log. L.remaining log ≡ held)
        → IfErr result (λ why. IsSaid note.old.is_wanted held why (string_bytes note.new.text)) }
    ensures silent { IfOk result (λ _. string_bytes note.new.text ≡ []) }
    ensures declined { (held : Option (List ℕ)) → IfSome log (λ log. L.remaining log ≡ held)
        → IfErr result (λ why. status_of why ≡ Status.Refused → Held held (λ bytes. Declines text.now bytes why)) }
    ensures follows { IfErr result (FollowsProgram text.now) }
    ensures reads { IfErr result (λ why. status_of why ≢ Status.CannotWrite) }
{
    let Taped { program, log } = match tape_in(alloc, text, log) {
        Ok(taped) => taped,
        Err(why) => return Err(why),
    };
    let machine = match play_all(alloc, program, &log) {
        Ok(machine) => machine,
        Err(fault) => {
            note.take_down(alloc, &log, &fault);
            return Err(RecordFailure::Replay(fault));
        }
    };
    match closing_of(alloc, &machine) {
        Ok(closing) => Ok(closing),
        Err(failure) => Err(RecordFailure::Program(failure)),
    }
}
