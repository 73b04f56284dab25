//! From the words, where the system has them, to the number that the program exits with.

ghost use Rattle.std.specs.Prelude.{◌≡◌, ◌≢◌, MatchResult, true, false};
ghost use Rattle.std.specs.IoError.{error_kind};
ghost use Rattle.cilk_program_runs.specs.commands.declared.status.Status.{Status};
ghost use Rattle.cilk_program_runs.specs.commands.Status.{code_of, is_answer};
ghost use Rattle.cilk_words.specs.CommandLine.{texts_of};
ghost use Rattle.cilk_program.specs.Ends.{Ends, explains_trap, opens_session, without_words};

use crate::dispatch::dispatch;
use cilk_program_runs::{Failure, Status, Streams, Texts};
use std::alloc::Global;
use std::io;
use std::io::{ErrorKind, Write};
use std::sync::Wait;
use std::thread::Threads;

const NOT_UTF8: &str = "error: a word is not UTF-8

Usage: cilk <COMMAND>

For more information, try '--help'.
";

/// Does what the words ask for, or tells why there are none, and returns the number that the program
/// exits with.
pub fn exit_code<H: Threads + Wait + Sync, T: Texts, O: Write, E: Write>(
    rt: &H,
    alloc: Global,
    words: io::Result<Vec<String>>,
    texts: &T,
    streams: &mut Streams<O, E>,
) -> u8
    ensures { (status : Status) × ((result ≡ code_of status)
        × MatchResult words
        (λ list. Ends (texts_of list.items) (T.held texts.now) (T.entered texts.now) status
        (O.contents streams.old.output) (O.contents streams.new.output) (E.contents streams.old.errors) (E.contents streams.new.errors))
        (λ error. status ≡ without_words (error_kind error))
        × (MatchResult words (λ list. explains_trap (texts_of list.items) status ≡ false) (λ error. Unit {0})
        → is_answer status ≡ true → streams.new.errors ≡ streams.old.errors)
        × (MatchResult words (λ list. opens_session (texts_of list.items) ≡ false) (λ error. Unit {0})
        → is_answer status ≡ false → status ≢ Status.CannotWrite → streams.new.output ≡ streams.old.output)
        × (status ≡ Status.Refused → streams.new.output ≡ streams.old.output)) }
{
    let status = match words {
        Ok(words) => dispatch(rt, alloc, words.as_slice(), texts, streams),
        Err(error) => refuse(&error, &mut streams.errors),
    };
    status.code()
}

// Tells why there are no words: memory has run out, or one is not UTF-8.
fn refuse<E: Write>(error: &io::Error, err: &mut E) -> Status
    ensures { result ≡ without_words (error_kind error.now) }
{
    match error.kind() {
        ErrorKind::OutOfMemory => Failure::Memory.report("", err),
        _ => {
            let _ = err.write_all(NOT_UTF8.as_bytes());
            Status::Usage
        }
    }
}
