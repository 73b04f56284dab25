//! The failures of `run` and of the subcommands on a recorded schedule, with the line that is written of each and its status.

ghost use Rattle.std.specs.Prelude.{◌≡◌, ◌++◌, ℕ, List, [], OnErr, OnOk, codes};
ghost use Rattle.std.specs.Io.KnownBytes.{Appends};
ghost use Rattle.cilk_commands.specs.Front.{AppendsFront};
ghost use Rattle.cilk_program_tapes.specs.Telling.{choice_line, code_of, log_line, replay_line};

use crate::file_names::FileNames;
use crate::log_task::LogTask;
use cilk_commands::{Failure, Status, tell_of, write_parts, write_whole};
use cilk_log_replay::{LogFault, Refusal, ReplayFault};
use itoa::Buffer;
use std::alloc::Global;
use std::io;
use std::io::Write;

/// Why a run, or a subcommand on a recorded schedule, has no answer.
#[derive(Drop)]
pub enum RecordFailure {
    /// There is no program, or memory has run out, or the output failed.
    Program(Failure),
    /// The recorded schedule cannot be opened, its reader failed, or it has more bytes than one may have.
    CannotRead,
    /// The bytes are no text of a recorded schedule.
    Log(LogFault),
    /// The choices cannot be made again.
    Replay(ReplayFault),
    /// A picture of it has more columns than one may have.
    TooLong,
    /// The log would go to the file that the program's text came from, and nothing is kept; or the store failed, and a part of the log may be kept.
    CannotStore,
    /// A worker cannot be started.
    CannotStart,
    /// The commands of a session cannot be read, or are too long or too many.
    Commands,
    /// The answers of a session cannot be written.
    Answers,
}

impl RecordFailure {
    ghost use Rattle.cilk_program_tapes.specs.Telling.{failure_line, status_of};
    ghost use Rattle.cilk_program_tapes.specs.GivingUp.{IsBehind, IsBehindLog, TellsWith};

    /// The status that tells of it.
    pub fn status(&self) -> Status
        ensures { result ≡ status_of self.now }
    {
        match self {
            RecordFailure::Program(failure) => failure.status(),
            RecordFailure::Log(LogFault::Memory) | RecordFailure::Replay(ReplayFault::Memory) => {
                Status::Memory
            }
            RecordFailure::Log(_) | RecordFailure::Replay(_) => Status::Refused,
            RecordFailure::TooLong => Status::Refused,
            RecordFailure::CannotRead | RecordFailure::Commands => Status::CannotRead,
            RecordFailure::CannotStore => Status::CannotRecord,
            RecordFailure::CannotStart => Status::CannotStart,
            RecordFailure::Answers => Status::CannotWrite,
        }
    }

    /// Writes the line that tells of it, with the names of the texts, and returns the status. A line that cannot be written
    /// is lost.
    pub fn report<W: Write>(&self, names: &FileNames<'_>, err: &mut W) -> Status
        ensures status { result ≡ status_of self.now }
        ensures told { TellsWith names.now.program.now names.now.log.now self.now []
            (W.contents err.old) (W.contents err.new) }
    {
        self.report_with(names, "", err)
    }

    // Writes the same line, and then what is told behind it, and returns the status.
    fn report_with<W: Write>(&self, names: &FileNames<'_>, behind: &str, err: &mut W) -> Status
        ensures status { result ≡ status_of self.now }
        ensures told { TellsWith names.now.program.now names.now.log.now self.now behind.now
            (W.contents err.old) (W.contents err.new) }
    {
        let _ = self.tell_all(names, behind, err);
        self.status()
    }

    /// Does as `report`; behind the line stands, where `explain` is set, more of a fault in the program, which has these bytes.
    pub fn report_explained<W: Write>(
        &self,
        alloc: Global,
        names: &FileNames<'_>,
        explain: bool,
        text: &[u8],
        err: &mut W,
    ) -> Status
        ensures status { result ≡ status_of self.now }
        ensures told { (behind : List ℕ) × (IsBehind explain text.now self.now behind
            × TellsWith names.now.program.now names.now.log.now self.now behind (W.contents err.old) (W.contents err.new)) }
    {
        match self {
            RecordFailure::Program(failure) => {
                tell_of(alloc, names.program, explain, text, failure, err)
            }
            _ => self.report(names, err),
        }
    }

    /// The same of a failure about a log, and behind it, of a failure that is none of the program's, what is to be told of it.
    pub fn explain_log<W: Write>(
        &self,
        alloc: Global,
        task: &LogTask<'_>,
        text: &[u8],
        note: &str,
        err: &mut W,
    ) -> Status
        ensures status { result ≡ status_of self.now }
        ensures told { (behind : List ℕ) × (IsBehindLog task.now.explain text.now note.now self.now behind
            × TellsWith task.now.names.program.now task.now.names.log.now self.now behind (W.contents err.old) (W.contents err.new)) }
    {
        match self {
            RecordFailure::Program(failure) => {
                tell_of(alloc, task.names.program, task.explain, text, failure, err)
            }
            _ => self.report_with(&task.names, note, err),
        }
    }

    fn tell_all<W: Write>(&self, names: &FileNames<'_>, behind: &str, err: &mut W) -> io::Result<()>
        ensures ok { OnOk result (Appends (W.contents err.old) (W.contents err.new)
            (failure_line names.now.program.now names.now.log.now self.now ++ behind.now)) }
        ensures front { OnErr result (AppendsFront (W.contents err.old) (W.contents err.new)
            (failure_line names.now.program.now names.now.log.now self.now ++ behind.now)) }
    {
        self.tell(names, err)?;
        write_whole(err, behind.as_bytes())
    }

    fn tell<W: Write>(&self, names: &FileNames<'_>, err: &mut W) -> io::Result<()>
        ensures ok { OnOk result (Appends (W.contents err.old) (W.contents err.new)
            (failure_line names.now.program.now names.now.log.now self.now)) }
        ensures front { OnErr result (AppendsFront (W.contents err.old) (W.contents err.new)
            (failure_line names.now.program.now names.now.log.now self.now)) }
    {
        match self {
            RecordFailure::Program(failure) => failure.write_line(names.program, err),
            RecordFailure::CannotRead => Failure::CannotRead.write_line(names.log, err),
            RecordFailure::Log(fault) => tell_log(fault, names.log, err),
            RecordFailure::Replay(fault) => tell_replay(fault, names.log, err),
            RecordFailure::TooLong => {
                write_named(err, names.log, ": too long to draw; try --from and --to\n")
            }
            RecordFailure::CannotStore => {
                write_parts(err, &["cilk: cannot write ", names.log, "\n"])
            }
            RecordFailure::CannotStart => write_parts(err, &["cilk: cannot start a worker\n"]),
            RecordFailure::Commands => write_parts(err, &["cilk: session ended by B7\n"]),
            RecordFailure::Answers => write_parts(err, &["cilk: session ended by B8\n"]),
        }
    }
}

// A name, and what is told of it.
fn write_named<'a, W: Write>(err: &mut W, name: &'a str, words: &'a str) -> io::Result<()>
    ensures ok { OnOk result (Appends (W.contents err.old) (W.contents err.new) (name.now ++ words.now)) }
    ensures front { OnErr result (AppendsFront (W.contents err.old) (W.contents err.new) (name.now ++ words.now)) }
{
    write_parts(err, &[name, words])
}

fn tell_log<W: Write>(fault: &LogFault, name: &str, err: &mut W) -> io::Result<()>
    ensures ok { OnOk result (Appends (W.contents err.old) (W.contents err.new) (log_line name.now fault.now)) }
    ensures front { OnErr result (AppendsFront (W.contents err.old) (W.contents err.new) (log_line name.now fault.now)) }
{
    match fault {
        LogFault::Version => write_named(err, name, ": G1 Version\n"),
        LogFault::Line(number) => {
            let mut digits = Buffer::new();
            tell_line(err, name, digits.format(*number))
        }
        LogFault::Truncated => write_named(err, name, ": G3 Truncated\n"),
        LogFault::Count => write_named(err, name, ": G4 Count\n"),
        LogFault::TooMany => write_named(err, name, ": G6 TooMany\n"),
        LogFault::Memory => Failure::Memory.write_line(name, err),
    }
}

fn tell_replay<W: Write>(fault: &ReplayFault, name: &str, err: &mut W) -> io::Result<()>
    ensures ok { OnOk result (Appends (W.contents err.old) (W.contents err.new) (replay_line name.now fault.now)) }
    ensures front { OnErr result (AppendsFront (W.contents err.old) (W.contents err.new) (replay_line name.now fault.now)) }
{
    match fault {
        ReplayFault::OtherProgram => write_named(err, name, ": G5 OtherProgram\n"),
        ReplayFault::Workers => write_named(err, name, ": B0 Workers\n"),
        ReplayFault::BadChoice(number, refusal) => {
            let mut digits = Buffer::new();
            tell_choice(err, name, digits.format(*number), code_of(refusal))
        }
        ReplayFault::Memory => Failure::Memory.write_line(name, err),
    }
}

fn tell_line<'a, W: Write>(err: &mut W, name: &'a str, number: &'a str) -> io::Result<()>
    ensures ok { OnOk result (Appends (W.contents err.old) (W.contents err.new)
        (name.now ++ (codes ": G2 Line " ++ (number.now ++ codes "\n")))) }
    ensures front { OnErr result (AppendsFront (W.contents err.old) (W.contents err.new)
        (name.now ++ (codes ": G2 Line " ++ (number.now ++ codes "\n")))) }
{
    write_parts(err, &[name, ": G2 Line ", number, "\n"])
}

fn tell_choice<'a, W: Write>(
    err: &mut W,
    name: &'a str,
    number: &'a str,
    code: &'a str,
) -> io::Result<()>
    ensures ok { OnOk result (Appends (W.contents err.old) (W.contents err.new)
        (choice_line name.now number.now code.now)) }
    ensures front { OnErr result (AppendsFront (W.contents err.old) (W.contents err.new)
        (choice_line name.now number.now code.now)) }
{
    write_parts(err, &[name, ": B1 BadChoice ", number, " ", code, "\n"])
}

fn code_of(refusal: &Refusal) -> &'static str
    ensures { result.now ≡ code_of refusal.now }
{
    match refusal {
        Refusal::Over => "M1",
        Refusal::NoWorker => "M2",
        Refusal::HandEmpty => "M3",
        Refusal::Busy => "M4",
        Refusal::DequeEmpty => "M5",
        Refusal::Waiting => "M6",
        Refusal::Memory => "M7",
        Refusal::Stale => "M8",
    }
}
