//! All endings that a program has with so many workers, whatever schedule these take: laws of how a search for them goes on from one log to the next
//! and of which logs lead on to an end, and the search.
#![tactic(auto)]

mod comparing;
mod endings;
mod exploration;
mod explorer;
mod exploring;
pub mod laws;
mod links;
mod looking;
mod marking;
mod node;
mod probe;
mod store;
mod tag;
mod told;
mod unending;
mod walker;

pub use cilk_machine::{Choice, End, Loaded, MachineFault};
pub use exploration::Exploration;
pub use exploring::explore;
pub use told::Told;
