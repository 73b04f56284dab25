//! Choices of which one line of version 2 tells.

ghost use Rattle.std.specs.Prelude.{◌≡◌};
ghost use Rattle.cilk_sched.specs.Words.{choice_of};
ghost use Rattle.cilk_log.specs.Stretches.{are_joined};

use cilk_sched::{Act, Choice};

/// A choice, so many times one after another.
#[derive(Clone, Copy)]
pub(crate) struct Stretch {
    pub choice: Choice,
    pub times: u64,
}

/// Whether both are steps of one worker.
#[inline(always)]
pub(crate) fn are_joined(a: Choice, b: Choice) -> bool
    ensures { result ≡ are_joined (choice_of a) (choice_of b) }
{
    matches!(a.act, Act::Step) && matches!(b.act, Act::Step) && a.worker == b.worker
}
