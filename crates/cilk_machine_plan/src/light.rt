//! The plans of light steps, which need no memory and leave the frame in its hand.

use cilk_eval::Reached;
use cilk_machine_agree::Id;

/// A plan that takes no memory, and after which the instance goes on in the same hand. Most steps have such a one. It is
/// small, and is copied where a plan is moved.
#[derive(Clone, Copy)]
pub enum Light {
    /// The delivery that waits longest is taken: the cell takes the value. The number is that of the child's spawn.
    Take {
        child: Id,
        n: u32,
        reached: Reached,
        value: i32,
    },
    /// Nothing but the activation changes.
    Go {
        n: u32,
        to: u32,
    },
    /// A cell takes a value.
    Write {
        n: u32,
        reached: Reached,
        value: i32,
        to: u32,
    },
    /// A body above is left, and nothing takes its value.
    Leave {
        n: u32,
    },
    /// A C function is left, and a cell of its caller takes the value.
    Answer {
        n: u32,
        reached: Reached,
        value: i32,
    },
}
