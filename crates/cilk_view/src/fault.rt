//! What leaves a view without a text: a path that no live instance has, or want of memory; and that nothing can be written.

use cilk_load::Memory;
use thiserror::Error;

/// Why there is no text of a view. What `Display` writes is for who uses this crate, and no clause speaks of it: a session is answered by `Reply` of
/// `cilk_debug`.
#[derive(Debug, Drop, Error)]
pub enum ViewFault {
    /// No live instance has the path.
    #[error("B5 NoInstance")]
    NoInstance,
    /// Memory has run out.
    #[error("out of memory")]
    Memory(#[from] Memory),
}

/// The writer failed, so that a part of what was to be written may be written.
#[derive(Clone, Copy, Debug, PartialEq, Eq, Error)]
#[error("the writer failed")]
pub struct WriteFault;
