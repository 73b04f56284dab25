//! Values that belong together, as a plan gives them to what carries it out.

use cilk_machine_plan::{Arguments, Body, Ending, Id};

/// Action n is acted, and the activation goes on with the action `to`.
#[derive(Clone, Copy)]
pub(crate) struct Passage {
    pub(crate) n: u32,
    pub(crate) to: u32,
}

/// The child whose value is taken, and the number of its spawn.
#[derive(Clone, Copy)]
pub(crate) struct Sender {
    pub(crate) child: Id,
    pub(crate) n: u32,
}

/// A body starts, which has this number, with these arguments.
pub(crate) struct Start<'a> {
    pub(crate) number: u32,
    pub(crate) body: Option<&'a Body>,
    pub(crate) arguments: Arguments,
}

/// An instance ends so, at this choice.
#[derive(Clone, Copy)]
pub(crate) struct End {
    pub(crate) ending: Ending,
    pub(crate) choice: u64,
}
