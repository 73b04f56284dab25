//! The plans that a step may have, each with the values that carrying it out needs.

use cilk_eval::{Arguments, Await, Bytes, Reached, Receiver};
use cilk_machine_agree::{Id, Lock, TrapKind};

/// What a step of an instance is to do. Numbers are those of actions: n that of the action that is acted, and `to` that of
/// the one with which the activation goes on.
#[derive(Drop)]
pub enum Plan {
    /// It cannot step, as another instance holds the lock that it wants.
    Wait,
    /// It waits for its children.
    Park,
    /// It was aborted, and is no more.
    End,
    /// It is trapped at action n, and the program ends.
    Trap {
        kind: TrapKind,
        n: u32,
    },
    /// The delivery that waits longest is taken: the cell takes the value. The number is that of the child's spawn.
    Take {
        child: Id,
        n: u32,
        reached: Reached,
        value: i32,
    },
    /// The delivery that waits longest is taken: this inlet starts. The number is that of the child's spawn. It comes of a
    /// delivery, and of no effect: `Effect::Enters` leads to `Call`.
    Enter {
        child: Id,
        n: u32,
        inlet: u32,
        arguments: Arguments,
    },
    /// Nothing but the activation changes.
    Go {
        n: u32,
        to: u32,
    },
    /// A cell takes a value.
    Write {
        n: u32,
        reached: Reached,
        value: i32,
        to: u32,
    },
    /// A C function starts.
    Call {
        n: u32,
        awaits: Option<Await>,
        callee: u32,
        arguments: Arguments,
        to: u32,
    },
    /// An inlet is left, or a C function whose value nothing takes.
    Leave {
        n: u32,
    },
    /// A C function is left, and the cell that its caller reached takes this. It comes of `Effect::Gives`; `Effect::Answers` leads to `Go`.
    Answer {
        n: u32,
        reached: Reached,
        value: i32,
    },
    /// The procedure gives a value, and the instance is no more.
    Return {
        n: u32,
        value: i32,
    },
    /// A child starts.
    Spawn {
        n: u32,
        receiver: Receiver,
        callee: u32,
        arguments: Arguments,
        to: u32,
    },
    /// Bytes are printed.
    Print {
        n: u32,
        bytes: Bytes,
        to: u32,
    },
    /// The lock becomes this.
    TurnLock {
        n: u32,
        lock: u32,
        now: Lock,
        to: u32,
    },
    /// The live descendants are marked.
    Abort {
        n: u32,
        to: u32,
    },
}
