//! What the program does with its words, with texts by name and with two streams, and the subcommands that tell something of all choices of a schedule, or
//! show them.
//! `cilk` only says which texts and streams these are.
#![tactic(auto)]

mod dap;
mod dispatch;
mod draw;
mod draw_task;
mod exit;
mod marking;
mod measure;
mod opener;
mod races;
mod task;

pub use cilk_program_runs::{LogFolder, LogStore, Streams, Texts};
pub use exit::exit_code;
pub use measure::Numbers;
pub use races::Races;
