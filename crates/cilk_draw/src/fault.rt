//! What is wrong with a schedule that is not drawn: it cannot be replayed, or its picture would be too long.

use cilk_log_replay::ReplayFault;
use thiserror::Error;

/// Why a recorded schedule is not drawn.
#[derive(Debug, Drop, Error)]
pub enum DrawFault {
    /// Its choices cannot be made again.
    #[error(transparent)]
    Replay(ReplayFault),
    /// What is to be drawn has more columns than a picture may have.
    #[error("too long to draw")]
    TooLong,
}
