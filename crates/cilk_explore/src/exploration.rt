//! What an exploration tells.

use crate::told::Told;
use cilk_machine::Choice;

/// The endings that were found, in the order in which they were.
#[derive(Drop)]
pub struct Exploration {
    pub told: Vec<Told>,
    /// Whether all was looked at.
    pub whole: bool,
    /// A log behind which the program never ends, whatever choices follow, if all was looked at and there is one.
    pub endless: Option<Vec<Choice>>,
    /// Whether all this is so of each larger number of workers too, up to 64, if all was looked at and that was found.
    pub or_more: bool,
    /// How many logs were found. Two of them may lead to the same, where that was not found.
    pub standings: u32,
}
