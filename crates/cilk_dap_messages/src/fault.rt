//! What breaks off an exchange of messages: its input, its output, or want of memory.

use thiserror::Error;

/// Why no message more is read or written.
#[derive(Clone, Copy, Debug, PartialEq, Eq, Error)]
pub enum MessageFault {
    /// The reader failed, a header tells no length, or bytes are wanted and no more come.
    #[error("B7")]
    Read,
    /// The writer failed, so a part of a message may be written.
    #[error("B8")]
    Write,
    /// Memory has run out.
    #[error("out of memory")]
    Memory,
}
