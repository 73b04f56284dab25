//! A program run by several workers: each is a thread, and all take their turns at one machine under one lock, under which the choices that were
//! made are kept too (`Locked`, which is a crate of its own). Or the workers are simulated, without threads: a seed names their choices, and a tally counts
//! how the runs by many seeds end.
#![tactic(auto)]

mod ahead;
mod choosing;
mod crew;
mod draws;
mod ended;
mod gate;
mod generator;
mod outcome;
mod playing;
mod post;
mod row;
mod run_lists;
mod run_result;
mod shared;
mod table;
mod tally_rows;
mod tallying;

pub use cilk_run_locked::{
    Act, Choice, Did, End, Event, Glimpse, Loaded, Locked, Machine, MachineFault, Outcome,
    Proposal, Refusal, ending, propose,
};
pub use crew::run;
pub use gate::{Gate, Open};
pub use generator::SplitMix;
pub use playing::run_by_seed;
pub use run_lists::{ChoiceCounts, Output};
pub use run_result::{Run, RunFault};
pub use table::digest_of_program;
pub use tallying::tally_of_seeds;
