//! A session over a reader and a writer.

ghost use Rattle.std.specs.Prelude.{◌≡◌, List, ℕ, Some, None, OnOk, IfErr};
ghost use Rattle.cilk_debug_console.specs.Words.{asked_of};
ghost use Rattle.cilk_debug.specs.Session.{ends_it};
ghost use Rattle.cilk_debug.specs.Ending.{Answers, Breaks};
ghost use Rattle.cilk_debug.specs.Replies.{fault_of, Answered};

use crate::debugger::Debugger;
use crate::session_fault::SessionFault;
use cilk_debug_console::{Command, LineFault, Lines, NextLine, lines_come_one_by_one};
use std::io::{Read, Write};

impl Debugger {
    /// Obeys what the reader asks line by line, and writes the answers, until a line is `quit` or no byte is left. An
    /// answer is written whole, and flushed, before the next line is read. Where it fails, the debugger stays where the
    /// last whole command left it: a move is whole once it was made, also where its answer cannot be made or written.
    pub fn session<R: Read, W: Write>(
        &mut self,
        reader: &mut R,
        writer: &mut W,
    ) -> Result<(), SessionFault>
        ensures done { OnOk result ((all : List ℕ) → R.remaining reader.old ≡ Some all
            → Answers self.old.shown self.new.shown all None (W.contents writer.old) (W.contents writer.new)) }
        ensures fault { IfErr result (λ why. (all : List ℕ) → R.remaining reader.old ≡ Some all
            → Breaks self.old.shown self.new.shown all (R.remaining reader.new) (W.contents writer.old) (W.contents writer.new) why) }
    {
        // A law, whose clauses the proof of the loop cites.
        lines_come_one_by_one();
        let mut lines = match Lines::new(self.allocator()) {
            Err(_) => return Err(SessionFault::Memory),
            Ok(lines) => lines,
        };
        'lines: loop {
            match lines.next(reader) {
                Err(fault) => return Err(ended_by(fault)),
                Ok(NextLine::End) => return Ok(()),
                Ok(NextLine::Last(command)) => return self.answer(command, writer),
                Ok(NextLine::Line(command)) => {
                    if ends_it(&command) {
                        return Ok(());
                    }
                    match self.answer(command, writer) {
                        Err(fault) => return Err(fault),
                        Ok(()) => {}
                    }
                }
            }
        }
    }

    // Obeys one command, and writes and flushes its answer.
    fn answer<W: Write>(&mut self, command: Command, writer: &mut W) -> Result<(), SessionFault>
        ensures { Answered self.old.shown self.new.shown (asked_of command) (W.contents writer.old) (W.contents writer.new) result }
    {
        match self.obey(&command) {
            Err(fault) => Err(fault),
            Ok(mut reply) => reply.send_to(self.allocator(), writer),
        }
    }
}

fn ends_it(command: &Command) -> bool
    ensures { result ≡ ends_it (asked_of command.now) }
{
    matches!(command, Command::Quit)
}

fn ended_by(fault: LineFault) -> SessionFault
    ensures { result ≡ fault_of fault }
{
    match fault {
        LineFault::Read(fault) => SessionFault::Read(fault),
        LineFault::Memory => SessionFault::Memory,
    }
}
