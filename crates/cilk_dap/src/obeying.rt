//! From what is asked for to what is done with a program that was launched.

use crate::opened::Opened;
use crate::refusal::{NO_SUCH_REQUEST, Refusal};
use crate::variables::tell_scopes;
use cilk_dap_messages::{After, Ask, Asked, Message, Stop, put_continued};

impl Opened {
    /// Does what is asked, and puts into the response what it tells.
    pub(crate) fn obey(
        &mut self,
        ask: Ask,
        asked: &Asked<'_>,
        message: &mut Message,
    ) -> Result<After, Refusal> {
        match ask {
            Ask::SetBreaks => behind(self.set_breaks(asked, message)),
            Ask::SetWatched => behind(self.set_watched(asked, message)),
            Ask::Watchable => behind(self.tell_watchable(asked, message)),
            Ask::Threads => behind(self.tell_threads(message)),
            Ask::Stack => behind(self.tell_stack(asked, message)),
            Ask::Scopes => behind(tell_scopes(asked, message)),
            Ask::Variables => behind(self.tell_variables(asked, message)),
            Ask::Source => behind(self.tell_source(message)),
            Ask::Evaluate => self.evaluate(asked, message),
            Ask::Continue => stopped(self.tell_continued(message)),
            _ => stopped(self.move_by(ask, asked.thread())),
        }
    }

    // Goes on, and tells so.
    fn tell_continued(&mut self, message: &mut Message) -> Result<Stop, Refusal> {
        let stop = self.go_on()?;
        put_continued(message)?;
        Ok(stop)
    }

    // Moves as is asked, by a worker's choices or by all.
    fn move_by(&mut self, ask: Ask, worker: u64) -> Result<Stop, Refusal> {
        match ask {
            Ask::StepIn => self.step(),
            Ask::StepBack => self.back(),
            Ask::Next => self.step_of(worker),
            Ask::StepOut => self.step_out(worker),
            Ask::ReverseContinue => self.go_back(),
            Ask::Restart => self.restart(),
            _ => Err(Refusal::Words(NO_SUCH_REQUEST)),
        }
    }
}

/// What follows a response that tells something.
pub(crate) fn behind(told: Result<(), Refusal>) -> Result<After, Refusal> {
    match told {
        Ok(()) => Ok(After::Nothing),
        Err(refusal) => Err(refusal),
    }
}

/// What follows a move.
pub(crate) fn stopped(moved: Result<Stop, Refusal>) -> Result<After, Refusal> {
    match moved {
        Ok(stop) => Ok(After::Stopped(stop)),
        Err(refusal) => Err(refusal),
    }
}
