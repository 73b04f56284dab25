//! Watched variables of the top level.

use crate::opened::Opened;
use crate::refusal::{Refusal, told};
use cilk_dap_messages::{
    Asked, GLOBALS, Message, is_variable, put_watchable, watch_all, watched_in,
};
use cilk_debug::What;

impl Opened {
    /// What `globals` shows.
    pub(crate) fn view_globals(&self) -> Result<String, Refusal> {
        Ok(self.debugger.view(&What::Globals)?)
    }

    /// The lines of the watched variables in what `globals` shows.
    pub(crate) fn watched_values(&self) -> Result<String, Refusal> {
        let view = self.view_globals()?;
        match watched_in(self.alloc, view.as_str(), self.watched.as_str()) {
            Err(_) => Err(Refusal::Memory),
            Ok(values) => Ok(values),
        }
    }

    /// Answers whether a variable can be watched: one of the top level can, and no other of that name.
    pub(crate) fn tell_watchable(
        &self,
        asked: &Asked<'_>,
        message: &mut Message,
    ) -> Result<(), Refusal> {
        let Some(name) = asked.text("name") else {
            return Err(Refusal::Words("a name is wanted"));
        };
        let found = self.is_watchable(asked.number("variablesReference"), name)?;
        told(put_watchable(found, name, message))
    }

    // Whether a variable of this name can be watched that an editor shows in a scope.
    fn is_watchable(&self, scope: Option<u64>, name: &str) -> Result<bool, Refusal> {
        match scope {
            None | Some(GLOBALS) => self.is_global(name),
            Some(_) => Ok(false),
        }
    }

    fn is_global(&self, name: &str) -> Result<bool, Refusal> {
        let view = self.view_globals()?;
        Ok(is_variable(view.as_str(), name))
    }

    /// Watches these variables, and no others.
    pub(crate) fn set_watched(
        &mut self,
        asked: &Asked<'_>,
        message: &mut Message,
    ) -> Result<(), Refusal> {
        let view = self.view_globals()?;
        self.watched.clear();
        let wanted = asked.argument("breakpoints");
        told(watch_all(view.as_str(), wanted, &mut self.watched, message))
    }
}
