//! What the words of the command line ask for, and the files that they name: which one a name stands for, how one is written whole or not at all, and what
//! stands where a standard stream is closed.
//!
//! No clause can promise that a file works, or which one it is that is opened: cases of the built program see it.
//! The words of help are in no clause: cases of the built program see them.
#![tactic(auto)]

mod arguments;
mod beside;
mod clash;
mod plain;
mod refusal;
mod request;
mod requesting;
mod seats;
mod source;
mod table;
mod writing;

pub use beside::{LONGEST, name_beside};
pub use clash::Clash;
pub use refusal::NoRequest;
pub use request::{Request, Task};
pub use requesting::request_in;
pub use seats::seat;
pub use source::{Source, is_no_log, is_same_file, source_of};
pub use writing::replace_file;
