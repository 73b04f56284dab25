//! The subcommand `print`: the canonical text of a program, or why there is none.

ghost use Rattle.std.specs.Prelude.{◌≡◌, ◌≢◌, true, false};
ghost use Rattle.cilk_commands.specs.Loading.{Unready};
ghost use Rattle.cilk_commands.specs.Telling.{GivesUp};
ghost use Rattle.cilk_commands.specs.Printing.{Prints, PrintsFront};
ghost use Rattle.cilk_commands.specs.Status.{is_answer};

use crate::answering::{Answered, Answering, answer_text};
use crate::failure::Failure;
use crate::loading::ready_of;
use crate::status::Status;
use std::alloc::Global;
use std::io::{Read, Write};

/// Writes the canonical text of the program that the reader holds to `out`, or else the line that says why not to `err`,
/// where `name` is the name of the text, and behind it, with `explain`, more of a fault in the program. The answer is made
/// whole before any of it is written. A line that cannot be written is lost.
pub fn print_text<R: Read, O: Write, E: Write>(
    alloc: Global,
    name: &str,
    explain: bool,
    reader: &mut R,
    out: &mut O,
    err: &mut E,
) -> Status
    ensures done { result ≡ Status.Done
        → Prints (R.remaining reader.old) (O.contents out.old) (O.contents out.new) }
    ensures usage { result ≢ Status.Usage }
    ensures only { is_answer result ≡ true → result ≡ Status.Done }

    // Where there is no answer.
    ensures told { is_answer result ≡ false → GivesUp Unready explain name.now result
        (R.remaining reader.old) (E.contents err.old) (E.contents err.new) }
    ensures begun { result ≡ Status.CannotWrite
        → PrintsFront (R.remaining reader.old) (O.contents out.old) (O.contents out.new) }

    // What stays as it was.
    ensures quiet { is_answer result ≡ true → err.new ≡ err.old }
    ensures kept { is_answer result ≡ false → result ≢ Status.CannotWrite → out.new ≡ out.old }
{
    answer_text::<PrintAnswer, R, O, E>(alloc, name, explain, reader, out, err)
}

// The answer of `print`.
struct PrintAnswer;

impl Answering for PrintAnswer {
    ghost use Rattle.cilk_commands.specs.Printing.{IsPrinted};
    ghost use Rattle.cilk_commands.specs.Status.{IsDone};

    ghost are = { λ text status answer. IsDone IsPrinted text status answer };

    fn answer(alloc: Global, text: &[u8]) -> Result<Answered, Failure> {
        let program = ready_of(alloc, text)?;
        let Ok(answer) = program.text() else {
            return Err(Failure::Memory);
        };
        Ok(Answered {
            text: answer,
            status: Status::Done,
        })
    }

    ghost short = { λ text status answer is. is.1.ready.is.text.short };
}
