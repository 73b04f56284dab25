//! The activations of a worker, from the innermost one on: those of the instance in its hand, and of the ones that made it.

ghost use Rattle.std.specs.Prelude.{◌≡◌, IfOk, Some, string_bytes};
ghost use Rattle.cilk_debug.specs.Seeing.{seen_at};
ghost use Rattle.cilk_debug.specs.console.model.What.{where_it_stands};

use crate::opened::Opened;
use crate::refusal::{NO_SUCH_THREAD, Refusal, told};
use cilk_dap_messages::{Activation, Part, hand_in, parent_of, worker_line};
use cilk_debug::{Command, Memory, ViewFault, What, command_of};
use std::alloc::Global;

impl Opened {
    /// What `where` shows.
    pub(crate) fn view_where(&self) -> Result<String, Refusal>
        ensures { IfOk result (λ text. seen_at self.now.debugger.shown where_it_stands ≡ Some (string_bytes text)) }
    {
        Ok(self.debugger.view(&What::Where)?)
    }

    /// The activations of a worker behind the first ones, at most so many.
    pub(crate) fn activations(
        &self,
        worker: u64,
        first: u64,
        most: usize,
    ) -> Result<Vec<Activation>, Refusal> {
        let view = self.view_where()?;
        match worker_line(view.as_str(), worker) {
            None => Err(Refusal::Words(NO_SUCH_THREAD)),
            Some(line) => self.activations_of(hand_in(line), first, most),
        }
    }

    // The same of the instance in a hand.
    fn activations_of(
        &self,
        hand: Option<&str>,
        first: u64,
        most: usize,
    ) -> Result<Vec<Activation>, Refusal> {
        let mut part = Part::new(self.alloc, first, most);
        match self.put_stack(hand, &mut part) {
            Err(refusal) => {
                drop(part);
                Err(refusal)
            }
            Ok(()) => Ok(part.into_found()),
        }
    }

    // Those of an instance and of the ones that made it, whose paths are shorter.
    fn put_stack(&self, hand: Option<&str>, part: &mut Part) -> Result<(), Refusal> {
        let Some(hand) = hand else {
            return Ok(());
        };
        let mut path = hand;
        for _ in 0..=hand.len() {
            self.put_frame(path, part)?;
            match parent_of(path) {
                Some(parent) if part.wants_more() => path = parent,
                _ => return Ok(()),
            }
        }
        Ok(())
    }

    // Those of one instance, of which there are none where it does not live.
    fn put_frame(&self, path: &str, part: &mut Part) -> Result<(), Refusal> {
        match self.frame_text(path) {
            Err(memory) => Err(Refusal::from(memory)),
            Ok(None) => Ok(()),
            Ok(Some(text)) => told(part.take_all(text.as_str())),
        }
    }

    /// What `frame` shows of an instance, if it lives.
    pub(crate) fn frame_text(&self, path: &str) -> Result<Option<String>, Memory> {
        match frame_command(self.alloc, path) {
            Err(memory) => Err(memory),
            Ok(Command::View(what)) => self.seen(&what),
            Ok(_) => Ok(None),
        }
    }

    fn seen(&self, what: &What) -> Result<Option<String>, Memory> {
        match self.debugger.view(what) {
            Ok(text) => Ok(Some(text)),
            Err(ViewFault::NoInstance) => Ok(None),
            Err(ViewFault::Memory(memory)) => Err(memory),
        }
    }
}

// The command that shows an instance.
fn frame_command(alloc: Global, path: &str) -> Result<Command, Memory> {
    let line = format!(in alloc; "frame {path}")?;
    command_of(alloc, line.as_bytes())
}
