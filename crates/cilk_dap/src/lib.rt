//! The Debug Adapter Protocol over two streams: an editor's requests are answered by a debugger of a recorded schedule.
#![tactic(auto)]

mod adapter;
mod breaking;
mod evaluating;
mod known;
mod moving;
mod obeying;
mod opened;
mod opening;
mod refusal;
mod serving;
mod showing;
mod stack;
mod stopping;
mod variables;
mod watching;

pub use cilk_dap_messages::{MessageFault, SourceText, Unopened};
pub use cilk_debug::{Debugger, SessionFault, Unplayable};
pub use opened::Opened;
pub use opening::Opening;
pub use serving::serve;
