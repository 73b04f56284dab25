//! The actions of nodes, with slots for variables and numbers for bodies and locks.

use crate::code::Code;
use crate::codes::Codes;
use crate::taker::Taker;
use crate::target::Target;
use crate::text::Text;
use cilk_model::LockAction;

/// What an action does (C 1990, 6.6; Cilk 5.4 manual).
pub enum Action {
    /// An assignment, or an initialiser: what is written to, and the value. `x++` is `x += 1`.
    Assign(Target, Code),
    /// A call of a C function: what takes its value, if anything does, the number of its body, and its arguments.
    Call(Option<Target>, u32, Codes),
    /// A spawn: what takes the child's value, the number of the child's body, and its arguments.
    Spawn(Taker, u32, Codes),
    /// `printf`: its format and its arguments (C 1990, 7.9.6.3).
    Print(Text, Codes),
    /// One of the three calls of a lock, and the lock's number.
    Locking(LockAction, u32),
    /// The empty statement.
    Null,
    Break,
    Continue,
    /// The test of `if`, `switch`, `while`, `do` or `for`.
    Test(Code),
    Sync,
    Abort,
    /// `return`, and its value.
    Return(Code),
    /// `return` without a value.
    ReturnNothing,
    /// The closing brace of a body.
    Close,
}

// To drop it elsewhere is to call this, and its parts' drops are proved here alone.
impl Drop for Action {
    fn drop(self) {
        match self {
            Action::Assign(_a, _b) => {}
            Action::Call(_a, _, _c) => {}
            Action::Spawn(_a, _, _c) => {}
            Action::Print(_a, _b) => {}
            Action::Test(_a) => {}
            Action::Return(_a) => {}
            Action::Locking(_, _)
            | Action::Null
            | Action::Break
            | Action::Continue
            | Action::Sync
            | Action::Abort
            | Action::ReturnNothing
            | Action::Close => {}
        }
    }
}
