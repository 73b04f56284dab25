//! A program and a recorded schedule of it, read from their texts.

ghost use Rattle.std.specs.Prelude.{◌≡◌, ◌≢◌, ℕ, List, Option, Ok, IfSome, IfOk, IfErr};
ghost use Rattle.cilk_commands.specs.Held.{Held};
ghost use Rattle.cilk_commands.specs.Loading.{IsReady};
ghost use Rattle.cilk_commands.specs.declared.status.Status.TheVariants as ended;
ghost use Rattle.cilk_log_replay.specs.log.Reading.{log_read};
ghost use Rattle.cilk_log_replay.specs.log.Words.{log_of};
ghost use Rattle.cilk_log_replay.specs.Tape.{tape_of};
ghost use Rattle.cilk_program_tapes.specs.GivingUp.{FollowsProgram};
ghost use Rattle.cilk_program_tapes.specs.Telling.{status_of};
ghost use Rattle.cilk_program_tapes.specs.Taped.{Declines, IsTape, IsUnread};

use crate::failure::RecordFailure;
use cilk_commands::{Failure, Loaded, read_record, ready_of};
use cilk_log_replay::{Log, read_log};
use std::alloc::Global;
use std::io::Read;

/// A program and a recorded schedule. Whether the choices can be made again is not known.
#[derive(Drop)]
pub struct Taped {
    pub program: Loaded,
    pub log: Log,
}

/// The program that these bytes are, and the recorded schedule that the reader holds. What is wrong with the program is
/// told first.
pub fn tape_in<L: Read + Drop>(
    alloc: Global,
    text: &[u8],
    log: Option<L>,
) -> Result<Taped, RecordFailure>
    ensures ok { (held : Option (List ℕ)) → IfSome log (λ log. L.remaining log ≡ held)
        → IfOk result (λ taped. Held held (λ bytes.
        IsTape text.now bytes taped.log.program (tape_of taped.program taped.log.workers taped.log.choices))) }
    ensures ready { IfOk result (λ taped. IsReady text.now taped.program) }
    ensures declined { (held : Option (List ℕ)) → IfSome log (λ log. L.remaining log ≡ held)
        → IfErr result (λ why. status_of why ≡ ended.Refused → Held held (λ bytes. Declines text.now bytes why)) }
    ensures follows { IfErr result (FollowsProgram text.now) }
    ensures reads { IfErr result (λ why. status_of why ≢ ended.CannotWrite) }
{
    match ready_of(alloc, text) {
        Err(failure) => Err(RecordFailure::Program(failure)),
        Ok(program) => match schedule_of(alloc, log) {
            Err(why) => Err(why),
            Ok(log) => Ok(Taped { program, log }),
        },
    }
}

// The recorded schedule that the reader holds, if it could be opened.
fn schedule_of<L: Read + Drop>(alloc: Global, log: Option<L>) -> Result<Log, RecordFailure>
    ensures ok { (held : Option (List ℕ)) → IfSome log (λ log. L.remaining log ≡ held)
        → IfOk result (λ log. Held held (λ bytes. log_read bytes ≡ Ok (log_of log))) }
    ensures declined { (held : Option (List ℕ)) → IfSome log (λ log. L.remaining log ≡ held)
        → IfErr result (λ why. Held held (λ bytes. IsUnread bytes why)) }
    ensures reads { IfErr result (λ why. status_of why ≢ ended.CannotWrite) }
{
    let Some(mut log) = log else {
        return Err(RecordFailure::CannotRead);
    };
    read_schedule(alloc, &mut log)
}

// The same, of a reader that was opened. All bytes that it holds have to be the text of a schedule.
fn read_schedule<L: Read>(alloc: Global, reader: &mut L) -> Result<Log, RecordFailure>
    ensures ok { IfOk result (λ log. Held (L.remaining reader.old) (λ bytes. log_read bytes ≡ Ok (log_of log))) }
    ensures declined { IfErr result (λ why. Held (L.remaining reader.old) (λ bytes. IsUnread bytes why)) }
    ensures reads { IfErr result (λ why. status_of why ≢ ended.CannotWrite) }
{
    let bytes = match read_record(alloc, reader) {
        Ok(bytes) => bytes,
        Err(Failure::Memory) => return Err(RecordFailure::Program(Failure::Memory)),
        Err(_) => return Err(RecordFailure::CannotRead),
    };
    match read_log(alloc, bytes.as_slice()) {
        Ok(log) => Ok(log),
        Err(fault) => Err(RecordFailure::Log(fault)),
    }
}
