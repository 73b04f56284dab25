//! What an editor evaluates: commands of a session, or a variable by its name.

use crate::obeying::behind;
use crate::opened::Opened;
use crate::refusal::{Refusal, told};
use cilk_dap_messages::{
    After, Asked, FrameName, Message, Stop, local_in, put_found, put_result, value_in,
};
use cilk_debug::{InputFault, SessionFault};

impl Opened {
    /// Answers commands as a session does; where the editor only looks, as it does for what the mouse points at, the value of the variable of that name.
    pub(crate) fn evaluate(
        &mut self,
        asked: &Asked<'_>,
        message: &mut Message,
    ) -> Result<After, Refusal> {
        let Some(words) = asked.text("expression") else {
            return Err(Refusal::Words("an expression is wanted"));
        };
        match asked.text("context") {
            None | Some("repl") => self.command(words, message),
            Some(_) => behind(self.look_up(asked.number("frameId"), words, message)),
        }
    }

    // A session of these lines. Where it moves, the editor is told so.
    fn command(&mut self, words: &str, message: &mut Message) -> Result<After, Refusal> {
        let at = self.debugger.position();
        self.answer_lines(words, at, message)?;
        if self.debugger.position() == at {
            Ok(After::Nothing)
        } else {
            Ok(After::Stopped(Stop::Step))
        }
    }

    // Where they are too long or too many, the moves of those before are taken back, up to where they began.
    fn answer_lines(&mut self, words: &str, at: u64, message: &mut Message) -> Result<(), Refusal> {
        match self.replies_to(words) {
            Ok(replies) => put_answer(replies.as_slice(), message),
            Err(SessionFault::Read(fault)) => self.refuse_lines(fault, at),
            Err(_) => Err(Refusal::Memory),
        }
    }

    // What a session answers to these lines.
    fn replies_to(&mut self, words: &str) -> Result<Vec<u8>, SessionFault> {
        let mut replies = Vec::new(self.alloc);
        let mut lines = words.as_bytes();
        match self.debugger.session(&mut lines, &mut replies) {
            Err(fault) => Err(fault),
            Ok(()) => Ok(replies),
        }
    }

    fn refuse_lines(&mut self, fault: InputFault, at: u64) -> Result<(), Refusal> {
        self.debugger.go(at)?;
        match fault {
            InputFault::TooManyLines => Err(Refusal::Words("there are more than 1000000 lines")),
            _ => Err(Refusal::Words("a line has more than 4096 bytes")),
        }
    }

    // A variable of the frame, or of the top level.
    fn look_up(
        &self,
        frame: Option<u64>,
        name: &str,
        message: &mut Message,
    ) -> Result<(), Refusal> {
        if let Some(number) = frame {
            if self.tell_local(FrameName::of(number), name, message)? {
                return Ok(());
            }
        }
        self.tell_global(name, message)
    }

    // Whether the frame has such a variable.
    fn tell_local(
        &self,
        frame: FrameName,
        name: &str,
        message: &mut Message,
    ) -> Result<bool, Refusal> {
        let found = self.activations(frame.worker, frame.index, 1)?;
        match local_in(found.as_slice(), name) {
            None => Ok(false),
            Some(value) => Ok(put_found(value, message)?),
        }
    }

    fn tell_global(&self, name: &str, message: &mut Message) -> Result<(), Refusal> {
        let view = self.view_globals()?;
        put_global(value_in(view.as_str(), name), message)
    }
}

fn put_global(value: Option<&str>, message: &mut Message) -> Result<(), Refusal> {
    match value {
        Some(value) => told(put_result(value, message)),
        None => Err(Refusal::Words("no variable has this name here")),
    }
}

fn put_answer(answer: &[u8], message: &mut Message) -> Result<(), Refusal> {
    match str::from_utf8(answer) {
        Ok(answer) => told(put_result(answer.trim_end(), message)),
        Err(_) => Err(Refusal::Words("the answer is not UTF-8")),
    }
}
