//! Where a program and a recorded schedule come from that an editor names.

use crate::opened::Opened;
use cilk_dap_messages::Unopened;
use std::alloc::Global;

/// What opens the texts that an editor names.
pub trait Opening {
    /// The program of the text of this name, before any choice of the log of that one.
    fn open(&self, alloc: Global, program: &str, log: &str) -> Result<Opened, Unopened>;
}
