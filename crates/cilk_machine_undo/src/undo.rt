//! The record of a choice: what stood where the choice changed something.

use cilk_machine_plan::{Activation, Frame, Id, Lock, Remains, Taken, Writing};

/// Where the frame in a worker's hand stood: the action of its top activation, and the flag.
#[derive(Clone, Copy)]
pub struct Stood {
    pub node: u32,
    pub boundary: bool,
    pub worker: u8,
}

/// What is left of an instance that ended.
#[derive(Drop)]
pub struct Ended {
    pub frame: Frame,
    pub remains: Remains,
}

/// An instance that ended: the locks that it held, whether its value went to its parent, and what is left of it.
pub struct Gone {
    pub held: Vec<usize>,
    pub sent: bool,
    pub ended: Option<Ended>,
}

// To drop it elsewhere is to call this, and its parts' drops are proved here alone.
impl Drop for Gone {
    fn drop(self) {
        let Gone {
            held: _held,
            sent: _,
            ended: _ended,
        } = self;
    }
}

/// What one choice changed. A box is made before the choice, and takes what is moved out of the machine: it holds nothing
/// where nothing was.
#[derive(Drop)]
pub enum Undo {
    /// Nothing but the outcome.
    Stayed {
        worker: u8,
    },
    Went {
        stood: Stood,
    },
    /// A cell held this too.
    Wrote {
        stood: Stood,
        writing: Writing,
    },
    /// A C function was called.
    Called {
        stood: Stood,
    },
    /// So many bytes were printed before.
    Printed {
        stood: Stood,
        count: usize,
    },
    /// A lock was so.
    Turned {
        stood: Stood,
        was: Lock,
        lock: u32,
    },
    /// These instances were marked.
    Marked {
        stood: Stood,
        ids: Vec<Id>,
    },
    /// This instance spawned a child.
    Spawned {
        stood: Stood,
        id: Id,
    },
    /// A delivery was taken, and a cell held this.
    Took {
        taken: Box<Option<Taken>>,
        writing: Writing,
        worker: u8,
    },
    /// A delivery was taken, and an inlet started.
    Opened {
        taken: Box<Option<Taken>>,
        worker: u8,
    },
    /// This activation was left.
    Closed {
        activation: Box<Option<Activation>>,
        worker: u8,
    },
    /// So it was, and a cell below held this.
    Answered {
        activation: Box<Option<Activation>>,
        writing: Writing,
        worker: u8,
    },
    /// The frame of this instance was parked.
    Parked {
        id: Id,
        worker: u8,
    },
    Ended {
        gone: Box<Gone>,
        worker: u8,
    },
    Popped {
        worker: u8,
    },
    Stolen {
        worker: u8,
        victim: u8,
    },
}

const _: () = prove!(size_of::<Undo>() <= 40);
