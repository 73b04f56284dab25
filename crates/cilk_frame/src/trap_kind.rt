//! The kinds of traps that end a program.

use cilk_load_nodes::Trap;

/// Why a program was trapped.
#[derive(Clone, Copy, Debug, PartialEq, Eq)]
pub enum TrapKind {
    /// An expression has no value.
    Value(Trap),
    /// A lock is used against the rules of `Cilk_lock`.
    Lock,
    /// An instance waits, spawns or ends while it holds a lock.
    HeldLock,
    /// Too many calls are under way in one instance.
    Depth,
    /// Too many instances are live, or one has too many children.
    Instances,
    /// The output is too long.
    Output,
}
