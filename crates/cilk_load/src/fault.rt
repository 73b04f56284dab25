//! What keeps a checked program from having tables: too many actions, or want of memory.

use thiserror::Error;

/// Why a program was not loaded.
#[derive(Clone, Copy, Debug, PartialEq, Eq, Error)]
pub enum LoadFault {
    /// The program has more than 65,535 actions.
    #[error("N1 TooMany")]
    TooMany,
    /// Memory has run out.
    #[error("out of memory")]
    Memory,
}
