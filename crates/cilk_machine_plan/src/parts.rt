//! What a step may change of a machine: cells, locks, output, the tree of instances, and the hands and deques.

use crate::spent::Spent;
use cilk_machine_agree::{Hands, Lock, Tree};

/// What a step may change.
pub struct Parts {
    /// The cells of the variables of the top level.
    pub globals: Vec<i32>,
    pub locks: Vec<Lock>,
    /// What was printed.
    pub output: Vec<u8>,
    pub tree: Tree,
    pub hands: Hands,
    /// What the last step moved out of these.
    pub spent: Spent,
}

// To drop it elsewhere is to call this, and its parts' drops are proved here alone.
impl Drop for Parts {
    fn drop(self) {
        let Parts {
            globals: _globals,
            locks: _locks,
            output: _output,
            tree: _tree,
            hands: _hands,
            spent: _spent,
        } = self;
    }
}
