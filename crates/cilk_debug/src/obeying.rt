//! One command of a session.

ghost use Rattle.std.specs.Prelude.{◌≡◌, None, Ok, IfOk, IfErr};
ghost use Rattle.cilk_debug_console.specs.Command as asked;
ghost use Rattle.cilk_debug_console.specs.Words.{asked_of};
ghost use Rattle.cilk_log_replay.specs.machine.frame.Asked.{what_of};
ghost use Rattle.cilk_debug.specs.Obeying.{shown_text};
ghost use Rattle.cilk_debug.specs.Seeing.{seen_at};
ghost use Rattle.cilk_debug.specs.Replies.{reply_text, Obeys};

use crate::debugger::Debugger;
use crate::fault::DebugFault;
use crate::reply::Reply;
use crate::session_fault::SessionFault;
use cilk_debug_console::Command;
use cilk_log_replay::{ViewFault, What};

impl Debugger {
    /// Does what is asked. Where memory runs out for the answer, it is done all the same.
    pub(crate) fn obey(&mut self, command: &Command) -> Result<Reply, SessionFault>
        ensures { Obeys self.old.shown self.new.shown (asked_of command.now) result }
    {
        match command {
            Command::Step => self.obey_step(),
            Command::Back => self.obey_back(),
            Command::Go(k) => self.obey_go(*k),
            Command::Next => self.obey_next(),
            Command::Previous => self.obey_previous(),
            Command::Break(n) => self.obey_break(*n),
            Command::Clear(n) => self.obey_clear(*n),
            Command::View(what) => self.reply_with_view(what),
            // `quit` comes here only as a last line without a newline, behind which the session ends anyway.
            Command::Quit | Command::Nothing => Ok(Reply::Nothing),
            Command::Unknown => Ok(Reply::Unknown),
        }
    }

    fn obey_step(&mut self) -> Result<Reply, SessionFault>
        ensures { Obeys self.old.shown self.new.shown asked.step result }
    {
        match self.step() {
            Ok(()) => self.reply_with_view(&What::Where),
            Err(DebugFault::AtEnd) => Ok(Reply::AtEnd),
            Err(DebugFault::Memory) => Err(SessionFault::Memory),
            Err(_) => unreachable!(),
        }
    }

    fn obey_back(&mut self) -> Result<Reply, SessionFault>
        ensures { Obeys self.old.shown self.new.shown asked.back result }
    {
        match self.back() {
            Ok(()) => self.reply_with_view(&What::Where),
            Err(DebugFault::AtStart) => Ok(Reply::AtStart),
            Err(DebugFault::Memory) => Err(SessionFault::Memory),
            Err(_) => unreachable!(),
        }
    }

    fn obey_go(&mut self, k: u64) -> Result<Reply, SessionFault>
        ensures { Obeys self.old.shown self.new.shown (asked.go k) result }
    {
        match self.go(k) {
            Ok(()) => self.reply_with_view(&What::Where),
            Err(DebugFault::OutOfRange) => Ok(Reply::OutOfRange),
            Err(DebugFault::Memory) => Err(SessionFault::Memory),
            Err(_) => unreachable!(),
        }
    }

    fn obey_next(&mut self) -> Result<Reply, SessionFault>
        ensures { Obeys self.old.shown self.new.shown asked.next result }
    {
        match self.forward_to_break() {
            Ok(_) => self.reply_with_view(&What::Where),
            Err(DebugFault::AtEnd) => Ok(Reply::AtEnd),
            Err(DebugFault::Memory) => Err(SessionFault::Memory),
            Err(_) => unreachable!(),
        }
    }

    fn obey_previous(&mut self) -> Result<Reply, SessionFault>
        ensures { Obeys self.old.shown self.new.shown asked.previous result }
    {
        match self.back_to_break() {
            Ok(_) => self.reply_with_view(&What::Where),
            Err(DebugFault::AtStart) => Ok(Reply::AtStart),
            Err(DebugFault::Memory) => Err(SessionFault::Memory),
            Err(_) => unreachable!(),
        }
    }

    fn obey_break(&mut self, n: u32) -> Result<Reply, SessionFault>
        ensures { Obeys self.old.shown self.new.shown (asked.set n) result }
    {
        match self.set_break(n) {
            Ok(()) => Ok(Reply::Done),
            Err(DebugFault::NoStatement) => Ok(Reply::NoStatement),
            Err(_) => unreachable!(),
        }
    }

    fn obey_clear(&mut self, n: u32) -> Result<Reply, SessionFault>
        ensures { Obeys self.old.shown self.new.shown (asked.clear n) result }
    {
        match self.clear_break(n) {
            Ok(()) => Ok(Reply::Done),
            Err(DebugFault::NoStatement) => Ok(Reply::NoStatement),
            Err(_) => unreachable!(),
        }
    }

    // The text of a view as a reply, or that no live instance has the path.
    fn reply_with_view(&self, what: &What) -> Result<Reply, SessionFault>
        ensures text { IfOk result (λ reply. reply_text reply ≡ shown_text (seen_at self.now.shown (what_of what.now))) }
        ensures none { seen_at self.now.shown (what_of what.now) ≡ None → result ≡ Ok Reply.NoInstance }
        ensures memory { IfErr result (λ why. why ≡ SessionFault.Memory) }
    {
        match self.view_told(what) {
            Ok(telling) => Ok(Reply::Told(telling)),
            Err(ViewFault::NoInstance) => Ok(Reply::NoInstance),
            Err(ViewFault::Memory(_)) => Err(SessionFault::Memory),
        }
    }
}
