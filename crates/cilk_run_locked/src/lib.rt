//! What lies under the lock of a run: a machine with the list of the choices that led to it. And what a worker sees of its step beforehand, with the value
//! that it proposes. The crate knows no lock and no thread.
#![tactic(auto)]

mod glimpse;
mod locked;
mod proposal;

pub use cilk_log::{Choices, Log, program_of};
pub use cilk_machine::{
    Act, Choice, Did, End, Event, Known, Listed, Loaded, Machine, MachineFault, Memory, Outcome,
    Refusal, Trap, code_numbered, ending, put_trapped,
};
pub use glimpse::Glimpse;
pub use locked::Locked;
pub use proposal::{Proposal, propose};
