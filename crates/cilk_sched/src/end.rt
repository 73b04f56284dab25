//! How a run may close: with the value of `main`, with a trap, stuck, or with more choices possible.

use cilk_frame::{Path, TrapKind};

/// How a program stands when no more choices are made.
#[derive(Debug, Drop)]
pub enum End {
    /// `main` returned this value.
    Finished(i32),
    /// The instance was trapped at action n, which stands on this line of the canonical text.
    Trapped {
        kind: TrapKind,
        path: Path,
        n: u32,
        line: u32,
    },
    /// It has not ended, and no choice is possible.
    Stuck,
    /// It has not ended, and some choice is possible.
    Limit,
}
