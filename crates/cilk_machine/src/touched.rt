//! What a choice may change of the instances that live and of their frames, noted before it is made. No clause speaks of it.

use cilk_machine_undo::Id;

/// What a choice may change.
#[derive(Clone, Copy)]
pub struct Touched {
    /// The number that this came to before.
    pub(crate) before: u64,
    /// Whom a step touches. A pop and a steal change no more than where one frame is.
    pub(crate) step: Option<Stepping>,
}

impl Touched {
    /// Nothing, as of a choice that is not possible.
    pub(crate) fn nothing() -> Touched {
        Touched {
            before: 0,
            step: None,
        }
    }
}

/// Whom the step of a worker touches.
#[derive(Clone, Copy)]
pub(crate) struct Stepping {
    pub(crate) worker: u8,
    pub(crate) own: Id,
    pub(crate) parent: Option<Id>,
    /// Who is born, if the step spawns.
    pub(crate) child: Id,
    /// How many frames are in the worker's deque, which stay there.
    pub(crate) queued: usize,
    /// Whether it may be anyone, as of an `abort`.
    pub(crate) anyone: bool,
}
