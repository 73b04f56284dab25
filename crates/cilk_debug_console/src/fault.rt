//! What may go wrong with the input of a session, and with its next line.

use thiserror::Error;

/// Why an input is not read to its end.
#[derive(Clone, Copy, Debug, PartialEq, Eq, Error)]
pub enum InputFault {
    /// The reader failed, be it that it was interrupted.
    #[error("Device")]
    Device,
    /// More than 4,096 bytes stand before a newline.
    #[error("LineTooLong")]
    LineTooLong,
    /// A line stands behind 1,000,000 others.
    #[error("TooManyLines")]
    TooManyLines,
}

/// Why there is no next line.
#[derive(Clone, Copy, Debug, PartialEq, Eq, Error)]
pub enum LineFault {
    /// The input is at fault.
    #[error(transparent)]
    Read(InputFault),
    /// Memory has run out.
    #[error("out of memory")]
    Memory,
}
