//! What keeps a program from being opened as a machine: the number of its workers, or want of memory.

use cilk_frame::Memory;
use thiserror::Error;

/// Why there is no machine.
#[derive(Debug, Drop, Error)]
pub enum MachineFault {
    /// The number of workers is not one of 1 to 64.
    #[error("M0 Workers")]
    Workers,
    /// Memory has run out.
    #[error("out of memory")]
    Memory(Memory),
}
