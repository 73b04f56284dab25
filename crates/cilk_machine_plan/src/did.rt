//! What is answered where a plan was carried out: what the step did and the outcome behind it, or want of memory.

ghost use Rattle.std.specs.Prelude.{◌≡◌};

use cilk_machine_agree::{Id, TrapKind};

/// What a step did. The number is that of the action; that of a delivery is the number of the
/// child's spawn.
#[derive(Clone, Copy, Debug, PartialEq, Eq)]
pub enum Did {
    /// A frame was moved, and nothing else was changed.
    Moved,
    Acted(Id, u32),
    /// A child was spawned, which has this number.
    Spawned(Id, u32),
    /// The value of this child was taken.
    Delivered(Id, u32),
    Returned(Id, u32),
    /// An instance that was aborted is no more.
    Ended(Id),
    Trapped(TrapKind, Id, u32),
}

/// How the program stands then.
#[derive(Clone, Copy)]
pub enum Outcome {
    Running,
    /// The value of the root.
    Finished(i32),
    Trapped(TrapKind, Id, u32),
}

/// A step that was taken.
#[derive(Clone, Copy)]
pub struct Done {
    pub outcome: Outcome,
    pub did: Did,
}

impl Done {
    /// The program runs on.
    pub fn running(did: Did) -> Done
        ensures outcome { result.outcome ≡ Outcome.Running }
        ensures did { result.did ≡ did }
    {
        Done {
            outcome: Outcome::Running,
            did,
        }
    }
}

/// Memory has run out.
#[derive(Clone, Copy, Debug, PartialEq, Eq)]
pub struct NoMemory;
