//! A recorded schedule of which there is no debugger, and why.

use crate::replay_fault::ReplayFault;
use cilk_log::Log;

/// A recorded schedule that cannot be replayed. It is handed back with its fault, so that more can be told of that.
#[derive(Drop)]
pub struct Unplayable {
    pub log: Log,
    pub fault: ReplayFault,
}
