//! The answers of a session, and how they are written.

ghost use Rattle.std.specs.Prelude.{◌≡◌, ℕ, List, None, IfSome};
ghost use Rattle.cilk_debug.specs.Replies.{reply_text, TextWritten};

use crate::session_fault::SessionFault;
use cilk_log_replay::{Portion, Telling, send, send_told};
use std::alloc::Global;
use std::io::Write;

/// What is answered to a command.
#[derive(Drop)]
pub(crate) enum Reply {
    /// The text of a view.
    Told(Telling),
    /// A breakpoint was set or taken away.
    Done,
    /// The command has no answer.
    Nothing,
    /// There is no such command.
    Unknown,
    /// All choices were made.
    AtEnd,
    /// No choice was made yet.
    AtStart,
    /// The program has no action of that number.
    NoStatement,
    /// No live instance has the path.
    NoInstance,
    /// There are fewer choices.
    OutOfRange,
}

impl Reply {
    /// Writes it, and flushes it. All memory is taken before the first byte is written.
    pub(crate) fn send_to<W: Write>(
        &mut self,
        alloc: Global,
        writer: &mut W,
    ) -> Result<(), SessionFault>
        ensures { TextWritten (reply_text self.old) (W.contents writer.old) (W.contents writer.new) result }
    {
        match self.line() {
            Some(words) => say(writer, words),
            None => match self {
                Reply::Told(telling) => tell(alloc, writer, telling),
                _ => unreachable!(),
            },
        }
    }

    // The line of an answer that is always the same. The text of a view is none.
    fn line(&self) -> Option<&'static [u8]>
        ensures text { IfSome result (λ line. line.now ≡ reply_text self.now) }
        ensures none { result ≡ None → (telling : List ℕ) × (self.now ≡ Reply.Told telling) }
    {
        match self {
            Reply::Told(_) => None,
            Reply::Done => Some(b"ok\n"),
            Reply::Nothing => Some(b""),
            Reply::Unknown => Some(b"unknown command\n"),
            Reply::AtEnd => Some(b"B2 AtEnd\n"),
            Reply::AtStart => Some(b"B3 AtStart\n"),
            Reply::NoStatement => Some(b"B4 NoStatement\n"),
            Reply::NoInstance => Some(b"B5 NoInstance\n"),
            Reply::OutOfRange => Some(b"B6 OutOfRange\n"),
        }
    }
}

fn say<W: Write>(writer: &mut W, words: &[u8]) -> Result<(), SessionFault>
    ensures { TextWritten words.now (W.contents writer.old) (W.contents writer.new) result }
{
    match send(writer, words) {
        Ok(()) => Ok(()),
        Err(_) => Err(SessionFault::Write),
    }
}

fn tell<W: Write>(alloc: Global, writer: &mut W, telling: &mut Telling) -> Result<(), SessionFault>
    ensures { TextWritten telling.old (W.contents writer.old) (W.contents writer.new) result }
{
    let mut portion = match Portion::new(alloc) {
        Err(_) => return Err(SessionFault::Memory),
        Ok(portion) => portion,
    };
    match send_told(writer, telling, &mut portion) {
        Err(_) => Err(SessionFault::Write),
        Ok(()) => Ok(()),
    }
}
