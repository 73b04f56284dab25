//! The texts of the views of a program that runs.
#![tactic(auto)]

mod cells;
mod deques;
mod deques_telling;
mod entry;
mod fault;
mod finding;
mod following;
mod frames;
mod globals;
mod kin;
mod link;
mod listing;
mod output;
mod portion;
mod put;
mod sending;
mod showing;
mod shown;
mod spot;
mod tell_view;
mod telling;
mod texts;
mod tree;
mod tree_telling;
mod where_lines;

pub use cilk_load::Loaded;
pub use cilk_machine_agree::What;
pub use fault::{ViewFault, WriteFault};
pub use portion::Portion;
pub use sending::{send, send_told};
pub use showing::show;
pub use shown::Shown;
pub use tell_view::tell;
pub use telling::Telling;
