//! The subcommands that run or explore a program, answer commands on a recorded schedule, or tell something of one run, with texts by name and two streams;
//! and what is asked of each by the names of its texts. What is told of all choices of a schedule, by `measure` and `races`, and
//! its picture, stand above.
#![tactic(auto)]

mod asked;
mod debug;
mod explore;
mod explore_task;
mod folder;
mod logs;
mod outcome;
mod outcomes;
mod run;
mod run_closing;
mod run_task;
mod store;
mod tally;
mod tape_answer;
mod tape_task;
mod texts;
mod unexplored;

pub use asked::{debug_named, explore_named, replay_named, run_as_asked, tell_as_asked};
pub use cilk_program_tapes::{
    Answered, Answering, Failure, FileNames, Loaded, LogTask, Note, RecordFailure, Status, Streams,
    Taped, check_text, print_text, read_text, replay_text, tape_in, write_answer,
};
pub use debug::debug_text;
pub use explore::explore_text;
pub use explore_task::ExploreTask;
pub use folder::LogFolder;
pub use run::run_text;
pub use run_task::RunTask;
pub use store::LogStore;
pub use tally::tally_text;
pub use tape_answer::{TapeAnswering, run_told, tape_log_text};
pub use tape_task::TapeTask;
pub use texts::Texts;
