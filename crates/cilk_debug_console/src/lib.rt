//! What is asked of a debugger, line by line: the lines of an input, and the command that each one is.
#![tactic(auto)]

mod asking;
mod chunk;
mod command;
mod fault;
mod laws;
mod lines;
mod next;
mod taking;

pub use asking::command_of;
pub use cilk_log::{Choices, Log, LogFault, Trap, What, read_log, write_log};
pub use command::Command;
pub use fault::{InputFault, LineFault};
pub use laws::lines_come_one_by_one;
pub use lines::Lines;
pub use next::NextLine;
