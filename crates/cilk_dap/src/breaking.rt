//! Breakpoints at lines of the canonical text.

use crate::opened::Opened;
use crate::refusal::{Refusal, told};
use cilk_dap_messages::{Asked, Message, number_in, put_break};
use cilk_debug::DebugFault;
use serde_json::Value;

const NOT_OURS: &str = "lines are those of the canonical text, which a stack frame shows";

const NO_ACTION: &str = "no action stands on this line";

impl Opened {
    /// Sets breakpoints at the actions on these lines, and takes all others away.
    pub(crate) fn set_breaks(
        &mut self,
        asked: &Asked<'_>,
        message: &mut Message,
    ) -> Result<(), Refusal> {
        let is_ours = self.known.file().is_meant_by(asked.argument("source"));
        if is_ours {
            self.clear_all()?;
        }
        message.begin_body("breakpoints")?;
        self.set_those(is_ours, asked.argument("breakpoints"), message)?;
        told(message.end_body())
    }

    // Those of a list, where it is one.
    fn set_those(
        &mut self,
        is_ours: bool,
        wanted: Option<&Value>,
        message: &mut Message,
    ) -> Result<(), Refusal> {
        let Some(Value::Array(wanted)) = wanted else {
            return Ok(());
        };
        for one in wanted {
            self.set_one(is_ours, one, message)?;
        }
        Ok(())
    }

    fn clear_all(&mut self) -> Result<(), DebugFault> {
        for n in 1..=self.known.program.count() {
            self.debugger.clear_break(n)?;
        }
        Ok(())
    }

    fn set_one(
        &mut self,
        is_ours: bool,
        wanted: &Value,
        message: &mut Message,
    ) -> Result<(), Refusal> {
        let Some(line) = number_in(wanted, "line") else {
            return Err(Refusal::Words("a breakpoint has no line"));
        };
        let unset = self.set_where(is_ours, line)?;
        told(put_break(line, unset, message))
    }

    // Sets breakpoints on a line, or tells why there is none.
    fn set_where(&mut self, is_ours: bool, line: u64) -> Result<Option<&'static str>, DebugFault> {
        if !is_ours {
            return Ok(Some(NOT_OURS));
        }
        match self.set_on(line) {
            Err(fault) => Err(fault),
            Ok(true) => Ok(None),
            Ok(false) => Ok(Some(NO_ACTION)),
        }
    }

    // Whether the action of this number is on a line.
    fn stands_on(&self, n: u32, line: u64) -> bool {
        self.known.program.line_of(n).map(u64::from) == Some(line)
    }

    // At each action on a line; whether there is one.
    fn set_on(&mut self, line: u64) -> Result<bool, DebugFault> {
        let mut found = false;
        for n in 1..=self.known.program.count() {
            if self.stands_on(n, line) {
                self.debugger.set_break(n)?;
                found = true;
            }
        }
        Ok(found)
    }
}
