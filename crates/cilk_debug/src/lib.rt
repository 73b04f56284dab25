//! A debugger: a recorded schedule is replayed, forwards and backwards, and every state is seen.
#![tactic(auto)]

mod debugger;
mod fault;
mod obeying;
mod position;
mod reply;
mod session;
mod session_fault;

pub use cilk_debug_console::{Command, InputFault, command_of};
pub use cilk_log_replay::{
    Act, Choice, Choices, Did, End, Id, Loaded, Log, LogFault, Machine, Memory, ReplayFault,
    Unplayable, ViewFault, What, read_log, write_log,
};
pub use debugger::Debugger;
pub use fault::DebugFault;
pub use session_fault::SessionFault;
