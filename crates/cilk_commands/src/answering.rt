//! What the subcommands that answer the text of a program have in common: they read it, and write the answer or tell a failure.

ghost use Rattle.std.specs.Prelude.{◌≡◌, ◌≢◌, ◌≤◌, true, false, ℕ, List, length, IfErr, IfOk, string_bytes};
ghost use Rattle.cilk_check_explain.specs.lex.declared.reading.TheConstants.{TEXT_LIMIT};
ghost use Rattle.cilk_load.specs.Front.{Gains, GainsFront};
ghost use Rattle.cilk_commands.specs.Held.{Held};
ghost use Rattle.cilk_commands.specs.Loading.{Unready};
ghost use Rattle.cilk_commands.specs.Telling.{GivesUp};
ghost use Rattle.cilk_commands.specs.Status.{status_of, is_answer};

use crate::answer::write_answer;
use crate::explaining::tell_of;
use crate::failure::Failure;
use crate::source::read_text;
use crate::status::Status;
use std::alloc::Global;
use std::io::{Read, Write};

/// An answer, and the status that tells how the subcommand ends with it.
#[derive(Drop)]
pub struct Answered {
    pub text: String,
    pub status: Status,
}

/// What is answered to the text of a program.
pub trait Answering {
    ghost use Rattle.cilk_commands.specs.declared.status.Status.{Status};

    // The answers to the bytes of a text, each with its status.
    ghost are: { List ℕ → Status → List ℕ → Type 0 };

    /// The answer to the text of these bytes, or why there is none.
    fn answer(alloc: Global, text: &[u8]) -> Result<Answered, Failure>
        ensures ok { IfOk result (λ answer. are text.now answer.status (string_bytes answer.text)) }
        ensures answers { IfOk result (λ answer. is_answer answer.status ≡ true) }
        ensures untrapped { IfOk result (λ answer. answer.status ≢ Status.Trapped) }
        ensures declined { IfErr result (λ why. status_of why ≡ Status.Refused → Unready text.now why) }
        ensures reads { IfErr result (λ why. status_of why ≢ Status.CannotWrite) };

    // A text that is too long has none.
    ghost short: { (text : List ℕ) (status : Status) (answer : List ℕ) → are text status answer → length text ≤ TEXT_LIMIT };
}

/// Writes the answer to the text that the reader holds to `out`, or else the line that says why not to `err`, where `name` is the name of the text,
/// and behind it, with `explain`, more of a fault in the program. The answer is made whole before any of it is written. A line that cannot be
/// written is lost.
pub fn answer_text<A: Answering, R: Read, O: Write, E: Write>(
    alloc: Global,
    name: &str,
    explain: bool,
    reader: &mut R,
    out: &mut O,
    err: &mut E,
) -> Status
    ensures done { is_answer result ≡ true
        → Gains (λ answer. Held (R.remaining reader.old) (λ bytes. A.are bytes result answer)) (O.contents out.old) (O.contents out.new) }
    ensures untrapped { result ≢ Status.Trapped }
    ensures usage { result ≢ Status.Usage }

    // Where there is no answer.
    ensures told { is_answer result ≡ false → GivesUp Unready explain name.now result
        (R.remaining reader.old) (E.contents err.old) (E.contents err.new) }
    ensures begun { result ≡ Status.CannotWrite
        → GainsFront (λ answer. Held (R.remaining reader.old) (λ bytes. (status : Status) × A.are bytes status answer))
        (O.contents out.old) (O.contents out.new) }

    // What stays as it was.
    ensures quiet { is_answer result ≡ true → err.new ≡ err.old }
    ensures kept { is_answer result ≡ false → result ≢ Status.CannotWrite → out.new ≡ out.old }
{
    let bytes = match read_text(alloc, reader) {
        Ok(bytes) => bytes,
        Err(failure) => return failure.report(name, err),
    };
    let text = bytes.as_slice();
    match write_out::<A, O>(alloc, text, out) {
        Ok(status) => status,
        Err(failure) => tell_of(alloc, name, explain, text, &failure, err),
    }
}

fn write_out<A: Answering, W: Write>(
    alloc: Global,
    text: &[u8],
    out: &mut W,
) -> Result<Status, Failure>
    ensures ok { IfOk result (λ status. Gains (A.are text.now status) (W.contents out.old) (W.contents out.new)) }
    ensures answers { IfOk result (λ status. is_answer status ≡ true) }
    ensures untrapped { IfOk result (λ status. status ≢ Status.Trapped) }
    ensures declined { IfErr result (λ why. status_of why ≡ Status.Refused → Unready text.now why) }
    ensures begun { IfErr result (λ why. status_of why ≡ Status.CannotWrite
        → GainsFront (λ answer. (status : Status) × A.are text.now status answer) (W.contents out.old) (W.contents out.new)) }
    ensures kept { IfErr result (λ why. status_of why ≢ Status.CannotWrite → out.new ≡ out.old) }
{
    let answer = A::answer(alloc, text)?;
    match write_answer(out, answer.text.as_bytes()) {
        Ok(()) => Ok(answer.status),
        Err(failure) => Err(failure),
    }
}
