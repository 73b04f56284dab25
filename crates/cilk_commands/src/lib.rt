//! The subcommands `print` and `check`, over a reader and two writers, and what all subcommands need: the program of a text, statuses and lines of failures.
//!
//! No clause can promise that a reader or a writer works, or that one is flushed. So a body of
//! `read_text` or `write_answer` that always says that it does not work meets its contract too,
//! as does one of `Failure::report` that writes less than the line. Tests see these.
#![tactic(auto)]

mod answer;
mod answering;
mod check;
mod explaining;
mod failure;
mod fault;
mod loading;
mod print;
mod program;
mod source;
mod status;

pub use answer::{write_answer, write_parts, write_whole};
pub use answering::{Answered, Answering, answer_text};
pub use check::check_text;
pub use cilk_load::Loaded;
pub use explaining::{action_told, tell_of};
pub use failure::Failure;
pub use fault::Fault;
pub use loading::ready_of;
pub use print::print_text;
pub use program::checked_program;
pub use source::{RECORD_LIMIT, read_record, read_text};
pub use status::Status;
