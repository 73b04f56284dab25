//! The state of a search: two machines of the program, the logs that were found, and what is told.

use crate::links::Links;
use crate::probe::Probe;
use crate::store::Store;
use crate::told::Told;
use crate::walker::Walker;
use cilk_machine::Choice;
use std::alloc::Global;

/// A search for the endings of a program.
#[derive(Drop)]
pub(crate) struct Explorer {
    pub alloc: Global,
    /// It stands at the log that is looked at, or one choice behind it.
    pub walker: Walker,
    /// It goes to earlier logs, which are compared.
    pub probe: Probe,
    pub store: Store,
    /// Where the choices behind each log lead.
    pub links: Links,
    /// Room for the choices from one log to another.
    pub tail: Vec<Choice>,
    pub told: Vec<Told>,
    /// How many logs are kept at most.
    pub limit: usize,
    /// Whether some worker had nothing in its hand and its deque wherever it has looked.
    pub idle: bool,
}
