//! The subcommand `debug`: a session over a recorded schedule.

ghost use Rattle.std.specs.Prelude.{◌≡◌, ◌≢◌, ◌⊎◌, true, false, ℕ, List, [], Option, IfSome, IfOk, IfErr, string_bytes};
ghost use Rattle.cilk_program_tapes.specs.commands.Held.{Held};
ghost use Rattle.cilk_program_tapes.specs.commands.Status.{is_answer};
ghost use Rattle.cilk_program_tapes.specs.GivingUp.{FollowsProgram, GivesUp};
ghost use Rattle.cilk_program_tapes.specs.Taped.{Declines};
ghost use Rattle.cilk_program_tapes.specs.Telling.{status_of};
ghost use Rattle.cilk_program_runs.specs.Debugging.{Debugs, DebugsFront, DebugsPart, GainsFrontOf, GainsOf};
ghost use Rattle.cilk_program_runs.specs.Debugging.{IsSession, IsPart, broken_off};
ghost use Rattle.cilk_program_tapes.specs.Saying.{IsSaid};

use cilk_debug::{Debugger, SessionFault, Unplayable};
use cilk_program_tapes::{
    Failure, LogTask, Note, RecordFailure, Status, Streams, Taped, read_text, tape_in,
};
use std::alloc::Global;
use std::io::{Read, Write};

/// Answers the commands that a reader holds to the output, with a debugger of a recorded schedule and the program that
/// another reader holds, until they end, or else writes the line that says why not to the errors. There is no reader of the
/// schedule where it cannot be opened, which is told once the program can be run. What was answered before a session
/// broke off stays written. With `task.explain` more goes to the errors: of a fault in the program, and of a choice that is not
/// possible. A line that cannot be written is lost.
pub fn debug_text<R: Read, L: Read + Drop, C: Read, O: Write, E: Write>(
    alloc: Global,
    task: &LogTask<'_>,
    reader: &mut R,
    log: Option<L>,
    commands: &mut C,
    streams: &mut Streams<O, E>,
) -> Status
    ensures done { (held : Option (List ℕ)) → IfSome log (λ log. L.remaining log ≡ held)
        → result ≡ Status.Done → Debugs (R.remaining reader.old) held (C.remaining commands.old)
        (O.contents streams.old.output) (O.contents streams.new.output) }
    ensures usage { result ≢ Status.Usage }
    ensures only { is_answer result ≡ true → result ≡ Status.Done }

    // Where the commands did not all have their answers.
    ensures told { (held : Option (List ℕ)) → IfSome log (λ log. L.remaining log ≡ held)
        → is_answer result ≡ false → GivesUp Declines task.now.explain task.now.names.program.now task.now.names.log.now result
        (R.remaining reader.old) held (E.contents streams.old.errors) (E.contents streams.new.errors) }
    ensures begun { (held : Option (List ℕ)) → IfSome log (λ log. L.remaining log ≡ held)
        → result ≡ Status.CannotWrite → DebugsFront (R.remaining reader.old) held (C.remaining commands.old)
        (O.contents streams.old.output) (O.contents streams.new.output) }
    ensures part { (held : Option (List ℕ)) → IfSome log (λ log. L.remaining log ≡ held)
        → is_answer result ≡ false → result ≢ Status.CannotWrite → (streams.new.output ≡ streams.old.output)
        ⊎ DebugsPart (R.remaining reader.old) held (C.remaining commands.old)
        (O.contents streams.old.output) (O.contents streams.new.output) }

    // What stays as it was.
    ensures quiet { is_answer result ≡ true → streams.new.errors ≡ streams.old.errors }
    ensures kept { result ≡ Status.Refused → streams.new.output ≡ streams.old.output }
{
    let bytes = match read_text(alloc, reader) {
        Ok(bytes) => bytes,
        Err(failure) => {
            return RecordFailure::Program(failure).report(&task.names, &mut streams.errors);
        }
    };
    let text = bytes.as_slice();
    let mut note = Note::new(alloc, task.explain);
    match debug(alloc, text, log, commands, &mut note, &mut streams.output) {
        Ok(()) => Status::Done,
        Err(why) => why.explain_log(alloc, task, text, note.text.as_str(), &mut streams.errors),
    }
}

// What is told of a choice that is not possible is noted.
fn debug<L: Read + Drop, C: Read, W: Write>(
    alloc: Global,
    text: &[u8],
    log: Option<L>,
    commands: &mut C,
    note: &mut Note,
    out: &mut W,
) -> Result<(), RecordFailure>
    requires { string_bytes note.old.text ≡ [] }
    ensures ok { (held : Option (List ℕ)) → IfSome log (λ log. L.remaining log ≡ held)
        → IfOk result (λ done. GainsOf (λ lines answers. Held held (λ bytes. IsSession text.now bytes lines answers))
        (C.remaining commands.old) (W.contents out.old) (W.contents out.new)) }
    ensures declined { (held : Option (List ℕ)) → IfSome log (λ log. L.remaining log ≡ held)
        → IfErr result (λ why. status_of why ≡ Status.Refused → Held held (λ bytes. Declines text.now bytes why)) }
    ensures follows { IfErr result (FollowsProgram text.now) }
    ensures said { (held : Option (List ℕ)) → IfSome log (λ log. L.remaining log ≡ held)
        → IfErr result (λ why. IsSaid note.old.is_wanted held why (string_bytes note.new.text)) }
    ensures begun { (held : Option (List ℕ)) → IfSome log (λ log. L.remaining log ≡ held)
        → IfErr result (λ why. status_of why ≡ Status.CannotWrite
        → GainsFrontOf (λ lines answers. Held held (λ bytes. IsPart text.now bytes lines answers))
        (C.remaining commands.old) (W.contents out.old) (W.contents out.new)) }
    ensures part { (held : Option (List ℕ)) → IfSome log (λ log. L.remaining log ≡ held)
        → IfErr result (λ why. status_of why ≢ Status.CannotWrite → (out.new ≡ out.old)
        ⊎ GainsOf (λ lines answers. Held held (λ bytes. IsPart text.now bytes lines answers))
        (C.remaining commands.old) (W.contents out.old) (W.contents out.new)) }
    ensures kept { IfErr result (λ why. status_of why ≡ Status.Refused → out.new ≡ out.old) }
{
    let Taped { program, log } = match tape_in(alloc, text, log) {
        Ok(taped) => taped,
        Err(why) => return Err(why),
    };
    let mut debugger = match Debugger::open(alloc, program, log) {
        Ok(debugger) => debugger,
        Err(unplayable) => {
            let Unplayable { log, fault } = unplayable;
            note.take_down(alloc, &log, &fault);
            drop(log);
            return Err(RecordFailure::Replay(fault));
        }
    };
    match debugger.session(commands, out) {
        Ok(()) => {
            drop(debugger);
            Ok(())
        }
        Err(fault) => {
            drop(debugger);
            Err(broken_off(fault))
        }
    }
}

// Why a session broke off.
fn broken_off(fault: SessionFault) -> RecordFailure
    ensures { result ≡ broken_off fault }
{
    match fault {
        SessionFault::Read(_) => RecordFailure::Commands,
        SessionFault::Write => RecordFailure::Answers,
        SessionFault::Memory => RecordFailure::Program(Failure::Memory),
    }
}
