//! What may be wanting to make the tables of a program: memory, or numbers that are large enough.

use cilk_tree_syntax::Memory;
use std::alloc::AllocError;
use thiserror::Error;

/// Why tables are not made.
#[derive(Clone, Copy, Debug, Error)]
pub enum NoRoom {
    /// Memory has run out.
    #[error("out of memory")]
    Memory(#[from(alloc)] AllocError),
    /// A number passes what its type holds, which that of no tree in memory does.
    #[error("too large")]
    TooLarge,
}

impl From<Memory> for NoRoom {
    fn from(_: Memory) -> NoRoom {
        NoRoom::Memory(AllocError)
    }
}
