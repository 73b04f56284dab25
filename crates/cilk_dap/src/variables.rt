//! Scopes and their variables: those of a frame, and the variables, the locks and the deques of all workers.

use crate::opened::Opened;
use crate::refusal::{Refusal, told};
use cilk_dap_messages::{
    Asked, DEQUES, FrameName, GLOBALS, LOCKS, Message, put_scopes, put_standings, put_variables,
    put_variables_in,
};
use cilk_debug::What;

/// The scopes of a frame.
pub(crate) fn tell_scopes(asked: &Asked<'_>, message: &mut Message) -> Result<(), Refusal> {
    let Some(frame) = asked.number("frameId") else {
        return Err(Refusal::Words("a frame is wanted"));
    };
    told(put_scopes(frame, message))
}

impl Opened {
    /// The variables of a scope.
    pub(crate) fn tell_variables(
        &self,
        asked: &Asked<'_>,
        message: &mut Message,
    ) -> Result<(), Refusal> {
        message.begin_body("variables")?;
        self.put_scope_of(asked.number("variablesReference"), message)?;
        told(message.end_body())
    }

    fn put_scope_of(&self, scope: Option<u64>, message: &mut Message) -> Result<(), Refusal> {
        match scope {
            Some(GLOBALS) => self.put_globals(message),
            Some(LOCKS) => self.put_locks(message),
            Some(DEQUES) => self.put_deques(message),
            Some(number) => self.put_variables_of(FrameName::of(number), message),
            None => Err(Refusal::Words("a scope is wanted")),
        }
    }

    fn put_globals(&self, message: &mut Message) -> Result<(), Refusal> {
        let view = self.view_globals()?;
        told(put_variables(view.as_str(), message))
    }

    fn put_locks(&self, message: &mut Message) -> Result<(), Refusal> {
        let view = self.view_globals()?;
        told(put_standings(view.as_str(), message))
    }

    fn put_deques(&self, message: &mut Message) -> Result<(), Refusal> {
        let view = self.debugger.view(&What::Deques)?;
        told(put_standings(view.as_str(), message))
    }

    fn put_variables_of(&self, frame: FrameName, message: &mut Message) -> Result<(), Refusal> {
        match self.activations(frame.worker, frame.index, 1) {
            Err(refusal) => Err(refusal),
            Ok(found) => told(put_variables_in(found.as_slice(), message)),
        }
    }
}
