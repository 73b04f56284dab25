//! What an editor shows of where a program stands: its workers, their stacks, and its text.

use crate::opened::Opened;
use crate::refusal::{Refusal, told};
use cilk_dap_messages::{
    Asked, FrameName, Message, levels_of, put_content, put_frames, put_threads,
};

impl Opened {
    /// A thread for each worker, named by its line of `where`.
    pub(crate) fn tell_threads(&self, message: &mut Message) -> Result<(), Refusal> {
        let view = self.view_where()?;
        told(put_threads(view.as_str(), message))
    }

    /// The frames of a worker, from the innermost one on.
    pub(crate) fn tell_stack(
        &self,
        asked: &Asked<'_>,
        message: &mut Message,
    ) -> Result<(), Refusal> {
        let Some(worker) = asked.number("threadId") else {
            return Err(Refusal::Words("a thread is wanted"));
        };
        let index = asked.number("startFrame").unwrap_or(0);
        match self.activations(worker, index, levels_of(asked)) {
            Err(refusal) => Err(refusal),
            Ok(frames) => {
                let first = FrameName { worker, index };
                let file = self.known.file();
                told(put_frames(self.alloc, first, frames.as_slice(), file, message))
            }
        }
    }

    /// The canonical text.
    pub(crate) fn tell_source(&self, message: &mut Message) -> Result<(), Refusal> {
        let text = self.known.program.text()?;
        told(put_content(text.as_str(), message))
    }
}
