//! The text of a recorded schedule: written from the choices that were made, and read back.
#![tactic(auto)]

mod choices;
mod digest;
mod fault;
mod laws;
mod line;
mod log;
mod number;
mod reading;
mod reading_stretches;
mod stretch;
mod writing;
mod writing_stretches;

pub use choices::Choices;
pub use cilk_sched::{Act, Choice, Memory, Path, Trap, TrapKind, What};
pub use digest::program_of;
pub use fault::LogFault;
pub use laws::{one_list_of_stretches, one_text_each};
pub use log::Log;
pub use number::number_in;
pub use reading::read_log;
pub use writing::write_log;
