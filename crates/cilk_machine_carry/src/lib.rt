//! A choice is carried out: what one step changes by its plan in the cells, the locks, the output, the tree and the hands, and how a frame moves from a
//! deque to a hand, or why it may not.
#![tactic(auto)]

mod acting;
mod carry;
mod entering;
mod given;
mod lightly;
mod moves;
mod refusing;
mod releasing;
mod returning;
mod starting;
mod writing;

pub use carry::carry_out;
pub use cilk_machine_plan::{Did, Done, NoMemory, Outcome, Parts, Spent};
pub use lightly::carry_lightly;
pub use moves::{pop, steal};
pub use refusing::{is_worker, pop_refusal, steal_refusal};
