//! What is found in a run while its choices are made again, and how it is told. Its numbers: what its choices did, which of its steps has to come before
//! which, and the longest chain of these. And its races: which cells each step reads and writes, and which two accesses meet in steps that the program
//! does not order; with schedules that take two accesses in the other order.
#![tactic(auto)]

mod alike;
mod cell;
mod counts;
mod detour;
mod edge;
mod gauge;
mod hashing;
pub mod laws;
mod left_out;
mod links;
mod look;
mod may_meet;
mod measure;
pub mod measure_laws;
mod measure_lines;
mod measuring;
mod meeting;
mod mixed;
mod motion;
mod naming;
mod nature;
mod note_rows;
mod pairing;
mod put_reversal;
mod races;
mod racing;
mod racing_choices;
mod relation;
mod reversal;
mod reversing;
mod row;
mod rows;
mod seat;
mod streak;
mod streaks;
mod tally;
mod telling;
mod times;
mod told;
mod touch;
mod twins;
mod watch;
mod ways;

pub use cilk_log_replay::{Loaded, Log, LogFault, Memory, ReplayFault, Trap, TrapKind, play_all};
pub use measure::Measure;
pub use measure_lines::put_measure;
pub use measuring::{Measured, measure_all};
pub use racing::racing_behind;
pub use racing_choices::RacingChoices;
pub use told::{ToldRaces, races_of};
