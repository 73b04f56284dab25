//! Why an exploration has no answer, with the line that is written of it and its status.

ghost use Rattle.std.specs.Prelude.{◌≡◌, OnErr, OnOk, option_map};
ghost use Rattle.std.specs.Io.KnownBytes.{Appends};
ghost use Rattle.cilk_program_tapes.specs.commands.Front.{AppendsFront};
ghost use Rattle.cilk_program_runs.specs.Exploring.{cannot_keep, cannot_keep_by};

use crate::explore_task::ExploreTask;
use cilk_program_tapes::{Failure, Status, tell_of, write_parts};
use itoa::Buffer;
use std::alloc::Global;
use std::io;
use std::io::Write;

/// Why there is nothing to tell of an exploration.
#[derive(Clone, Copy)]
pub(crate) enum Unexplored {
    /// There is no program, or memory has run out, or the output failed.
    Program(Failure),
    /// The log of this number cannot be written.
    CannotKeep(u64),
}

impl Unexplored {
    ghost use Rattle.cilk_program_runs.specs.AsAsked.{log_name};
    ghost use Rattle.cilk_program_runs.specs.Unexplored.{TellsUnexplored, status_of};

    /// Writes the line that tells of it, and behind it, where more is asked for, more of a fault in the program, which has these bytes; returns the
    /// status. What cannot be written is lost.
    pub(crate) fn tell<W: Write>(
        &self,
        alloc: Global,
        task: &ExploreTask<'_>,
        text: &[u8],
        err: &mut W,
    ) -> Status
        ensures status { result ≡ status_of self.now }
        ensures told { TellsUnexplored task.now.explain task.now.program.now (log_name (option_map (λ it. it.now) task.now.logs)) text.now self.now
            (W.contents err.old) (W.contents err.new) }
    {
        match self {
            Unexplored::Program(failure) => {
                tell_of(alloc, task.program, task.explain, text, failure, err)
            }
            Unexplored::CannotKeep(number) => tell_log(task.folder(), *number, err),
        }
    }
}

// That a log cannot be written.
fn tell_log<W: Write>(folder: &str, number: u64, err: &mut W) -> Status
    ensures status { result ≡ Status.CannotRecord }
    ensures told { AppendsFront (W.contents err.old) (W.contents err.new) (cannot_keep folder.now number) }
{
    let mut digits = Buffer::new();
    let _ = write_log_line(err, folder, digits.format(number));
    Status::CannotRecord
}

fn write_log_line<'a, W: Write>(err: &mut W, folder: &'a str, number: &'a str) -> io::Result<()>
    ensures ok { OnOk result (Appends (W.contents err.old) (W.contents err.new) (cannot_keep_by folder.now number.now)) }
    ensures front { OnErr result (AppendsFront (W.contents err.old) (W.contents err.new) (cannot_keep_by folder.now number.now)) }
{
    write_parts(
        err,
        &["cilk: cannot write ", folder, "/", number, ".log", "\n"],
    )
}
