//! What the program tells of a recorded schedule: why there is none or it cannot be replayed, and how the program stands behind it (`replay`). Its picture, and
//! what is done with more than one schedule, and by threads, stands above.
#![tactic(auto)]

mod choice_line;
mod closing;
mod failure;
mod file_names;
mod log_task;
mod meaning;
mod note;
mod replay;
mod streams;
mod taped;
mod trapped;

pub use cilk_commands::{
    Answered, Answering, Failure, Loaded, Status, answer_text, check_text, print_text, read_text,
    ready_of, tell_of, write_answer, write_parts,
};
pub use cilk_log_replay::{Choices, Log, Memory, ReplayFault, write_log};
pub use closing::{Closing, closing_by};
pub use failure::RecordFailure;
pub use file_names::FileNames;
pub use log_task::LogTask;
pub use note::Note;
pub use replay::replay_text;
pub use streams::Streams;
pub use taped::{Taped, tape_in};
pub use trapped::{Ended, Trapped};
