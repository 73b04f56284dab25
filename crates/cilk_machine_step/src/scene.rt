//! What a step may look at, and not change, while its plan is made.

ghost use Rattle.std.specs.Prelude.{◌≡◌, ◌<◌, length};
ghost use Rattle.cilk_machine_plan.specs.nodes.Areas as slots;
ghost use Rattle.cilk_machine_plan.specs.frame.Frames.{depth};
ghost use Rattle.cilk_machine_plan.specs.agree.Locks.{is_held_by};
ghost use Rattle.cilk_machine_plan.specs.StepInput.{id_of, cells_in, holds_lock, is_outer};
ghost use Rattle.cilk_machine_step.specs.Scenes.{input_of};

use cilk_load::{Loaded, Slots};
use cilk_machine_plan::{Frame, Id, Lock, Tree};

/// All that a step looks at: the program, what is outside the instances, the tree of instances, and the frame of the
/// one that steps.
#[derive(Clone, Copy)]
pub struct Scene<'a> {
    pub loaded: &'a Loaded,
    pub globals: &'a Vec<i32>,
    pub locks: &'a Vec<Lock>,
    /// What was printed.
    pub output: &'a Vec<u8>,
    pub tree: &'a Tree,
    pub frame: &'a Frame,
}

impl<'a> Scene<'a> {
    /// The cells that the top activation sees.
    #[inline(always)]
    pub fn lent(&self) -> Slots<'a>
        requires { id_of (input_of self.now) < length (input_of self.now).nodes }
        ensures { slots.cells_of result ≡ cells_in (input_of self.now) }
    {
        Slots {
            own: self.frame.cells(self.frame.depth() - 1),
            outer: self.frame.cells(0),
            globals: self.globals.as_slice(),
            synched: self.tree.is_synched(self.frame.id()),
        }
    }

    /// Whether the instance holds a lock.
    pub fn holds_lock(&self) -> bool
        ensures { result ≡ holds_lock (input_of self.now) }
    {
        let id = self.frame.id();
        self.locks.iter().any(|lock| is_held_by(id, *lock))
    }

    /// Whether the procedure's own activation is on top.
    pub fn is_outer(&self) -> bool
        ensures value { result ≡ is_outer (input_of self.now) }
        ensures some { 0 < depth (input_of self.now).frame }
    {
        self.frame.depth() == 1
    }
}

// Whether a lock is held by the instance of this id.
pub(crate) fn is_held_by(id: Id, lock: Lock) -> bool
    ensures { result ≡ is_held_by id lock }
{
    match lock {
        Lock::Unset | Lock::Free => false,
        Lock::Held(by) => by == id,
    }
}
