//! The failures that every subcommand may have, with the line that is written of each and its status.

ghost use Rattle.std.specs.Prelude.{◌≡◌, ◌++◌, [], OnErr, OnOk};
ghost use Rattle.std.specs.Io.KnownBytes.{Appends};
ghost use Rattle.cilk_load.specs.Front.{AppendsFront};
ghost use Rattle.cilk_commands.specs.Telling.{fault_line};

use crate::answer::{write_parts, write_whole};
use crate::fault::Fault;
use crate::status::Status;
use itoa::Buffer;
use std::io;
use std::io::Write;

/// Why a subcommand has no answer.
#[derive(Clone, Copy, Debug, PartialEq, Eq)]
pub enum Failure {
    /// The text cannot be opened, or its reader failed before it was read; or a log has more bytes than one may have.
    CannotRead,
    /// A fault of the text, and the place of its first byte: line and column count from 1, the
    /// column in bytes.
    Fault {
        fault: Fault,
        line: u32,
        column: u32,
    },
    /// The bytes are not UTF-8.
    NotUtf8,
    /// The program has more than 65,535 actions.
    TooMany,
    /// Memory has run out.
    Memory,
    /// The writer failed, so a part of the answer may be written.
    CannotWrite,
}

impl Failure {
    ghost use Rattle.cilk_commands.specs.Telling.{WritesFailure, failure_line};
    ghost use Rattle.cilk_commands.specs.Status.{status_of};

    /// The status that tells of it.
    pub fn status(&self) -> Status
        ensures { result ≡ status_of self.now }
    {
        match self {
            Failure::Fault { .. } | Failure::NotUtf8 | Failure::TooMany => Status::Refused,
            Failure::Memory => Status::Memory,
            Failure::CannotRead => Status::CannotRead,
            Failure::CannotWrite => Status::CannotWrite,
        }
    }

    /// Writes the line that tells of it, where `name` is the name of the text, and returns the status.
    /// A line that cannot be written is lost.
    pub fn report<W: Write>(&self, name: &str, err: &mut W) -> Status
        ensures status { result ≡ status_of self.now }
        ensures told { WritesFailure name.now self.now [] (W.contents err.old) (W.contents err.new) }
    {
        self.report_with(name, "", err)
    }

    /// Writes the same line, and then what is told behind it, and returns the status.
    pub(crate) fn report_with<W: Write>(&self, name: &str, behind: &str, err: &mut W) -> Status
        ensures status { result ≡ status_of self.now }
        ensures told { WritesFailure name.now self.now behind.now (W.contents err.old) (W.contents err.new) }
    {
        let _ = self.tell_all(name, behind, err);
        self.status()
    }

    #[tactic(auto, using(cilk_load::proofs::Fronts::all_behind, cilk_load::proofs::Fronts::front_before, cilk_load::proofs::Fronts::front_behind))]
    fn tell_all<W: Write>(&self, name: &str, behind: &str, err: &mut W) -> io::Result<()>
        ensures ok { OnOk result
            (Appends (W.contents err.old) (W.contents err.new) (failure_line name.now self.now ++ behind.now)) }
        ensures front { OnErr result
            (AppendsFront (W.contents err.old) (W.contents err.new) (failure_line name.now self.now ++ behind.now)) }
    {
        self.write_line(name, err)?;
        write_whole(err, behind.as_bytes())
    }

    /// Writes the line that tells of it, where `name` is the name of the text.
    pub fn write_line<W: Write>(&self, name: &str, err: &mut W) -> io::Result<()>
        ensures ok { OnOk result
            (Appends (W.contents err.old) (W.contents err.new) (failure_line name.now self.now)) }
        ensures front { OnErr result
            (AppendsFront (W.contents err.old) (W.contents err.new) (failure_line name.now self.now)) }
    {
        match self {
            Failure::CannotRead => write_parts(err, &["cilk: cannot read ", name, "\n"]),
            Failure::Fault {
                fault,
                line,
                column,
            } => {
                let mut line_digits = Buffer::new();
                let mut column_digits = Buffer::new();
                write_fault(
                    err,
                    name,
                    line_digits.format(*line),
                    column_digits.format(*column),
                    fault.words(),
                )
            }
            Failure::NotUtf8 => write_parts(err, &[name, ": not UTF-8\n"]),
            Failure::TooMany => write_parts(err, &[name, ": N1 TooMany\n"]),
            Failure::Memory => write_parts(err, &["cilk: out of memory\n"]),
            Failure::CannotWrite => write_parts(err, &["cilk: cannot write output\n"]),
        }
    }
}

fn write_fault<'a, W: Write>(
    err: &mut W,
    name: &'a str,
    line: &'a str,
    column: &'a str,
    words: &'a str,
) -> io::Result<()>
    ensures ok { OnOk result (Appends (W.contents err.old) (W.contents err.new)
        (fault_line name.now line.now column.now words.now)) }
    ensures front { OnErr result (AppendsFront (W.contents err.old) (W.contents err.new)
        (fault_line name.now line.now column.now words.now)) }
{
    write_parts(err, &[name, ":", line, ":", column, ": ", words, "\n"])
}
