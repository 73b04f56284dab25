//! The subcommand `check`: how many actions a program has, or why it may not be run.

ghost use Rattle.std.specs.Prelude.{◌≡◌, ◌≢◌, true, false};
ghost use Rattle.cilk_commands.specs.Loading.{Unready};
ghost use Rattle.cilk_commands.specs.Telling.{GivesUp};
ghost use Rattle.cilk_commands.specs.Checking.{Passes, PassesFront};
ghost use Rattle.cilk_commands.specs.Status.{is_answer};

use crate::answering::{Answered, Answering, answer_text};
use crate::failure::Failure;
use crate::loading::ready_of;
use crate::status::Status;
use std::alloc::Global;
use std::io::{Read, Write};

/// Writes how many actions the program has that the reader holds to `out`, as `ok, 4 actions`, or else the line that says
/// why it may not be run to `err`, where `name` is the name of the text, and behind it, with `explain`, more of a fault in
/// the program. A line that cannot be written is lost.
pub fn check_text<R: Read, O: Write, E: Write>(
    alloc: Global,
    name: &str,
    explain: bool,
    reader: &mut R,
    out: &mut O,
    err: &mut E,
) -> Status
    ensures done { result ≡ Status.Done
        → Passes (R.remaining reader.old) (O.contents out.old) (O.contents out.new) }
    ensures usage { result ≢ Status.Usage }
    ensures only { is_answer result ≡ true → result ≡ Status.Done }

    // Where there is no answer.
    ensures told { is_answer result ≡ false → GivesUp Unready explain name.now result
        (R.remaining reader.old) (E.contents err.old) (E.contents err.new) }
    ensures begun { result ≡ Status.CannotWrite
        → PassesFront (R.remaining reader.old) (O.contents out.old) (O.contents out.new) }

    // What stays as it was.
    ensures quiet { is_answer result ≡ true → err.new ≡ err.old }
    ensures kept { is_answer result ≡ false → result ≢ Status.CannotWrite → out.new ≡ out.old }
{
    answer_text::<CountAnswer, R, O, E>(alloc, name, explain, reader, out, err)
}

// The answer of `check`.
struct CountAnswer;

impl Answering for CountAnswer {
    ghost use Rattle.cilk_commands.specs.Checking.{IsCounted};
    ghost use Rattle.cilk_commands.specs.Status.{IsDone};

    ghost are = { λ text status answer. IsDone IsCounted text status answer };

    fn answer(alloc: Global, text: &[u8]) -> Result<Answered, Failure> {
        let program = ready_of(alloc, text)?;
        let count = program.count();
        let Ok(line) = format!(in alloc; "ok, {count} actions\n") else {
            return Err(Failure::Memory);
        };
        Ok(Answered {
            text: line,
            status: Status::Done,
        })
    }

    ghost short = { λ text status answer is. is.1.ready.is.text.short };
}
