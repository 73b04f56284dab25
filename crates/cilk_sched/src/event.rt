//! The events by which a machine tells what a choice did, with paths and the numbers of actions.

use cilk_frame::{Path, TrapKind};

/// What a choice did. The number n is that of an action of the program.
#[derive(Debug, Drop)]
pub enum Event {
    /// The instance acted n.
    Acted { path: Path, n: u32 },
    /// The child was started, by n.
    Spawned { child: Path, n: u32 },
    /// The value of the child was taken. The number is that of its spawn.
    Delivered { child: Path, n: u32 },
    /// The instance ended with a value, by n.
    Returned { path: Path, n: u32 },
    /// The instance, which was aborted, is no more.
    Ended { path: Path },
    /// The instance was trapped at n, and the program ended.
    Trapped { kind: TrapKind, path: Path, n: u32 },
    /// An instance was moved, and nothing else was changed.
    Moved,
}
