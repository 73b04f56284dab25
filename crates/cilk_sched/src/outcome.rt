//! The outcome that a machine has behind each choice: running, finished with a value, or trapped.

use cilk_frame::{Path, TrapKind};

/// Whether a program has ended, and how.
#[derive(Debug, Drop)]
pub enum Outcome {
    Running,
    /// `main` returned this value.
    Finished(i32),
    /// The instance was trapped at action n.
    Trapped { kind: TrapKind, path: Path, n: u32 },
}
