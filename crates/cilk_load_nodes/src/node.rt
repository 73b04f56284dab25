//! The entry of one action in the tables: what it does, what may come next, and in which body it stands.

ghost use Rattle.std.specs.Prelude.{◌≡◌};
ghost use Rattle.cilk_load_nodes.specs.Table.{successor};

use crate::action::Action;
use crate::cases::Cases;

/// One action of a program.
pub struct Node {
    pub action: Action,
    /// The number of the action that comes next, if any comes in this body; of a test, where its value is not 0.
    pub next: Option<u32>,
    /// That of the one that comes next where the value of a test is 0. Of any other action it is `next`.
    pub other: Option<u32>,
    /// The cases of a `switch`, whose `next` and `other` both are where `default` leads, or what is behind it. Any other action has none.
    pub cases: Cases,
    /// The number of the body in which it stands, from 0 on. The bodies of a procedure's inlets come behind its own.
    pub body: u32,
}

// To drop it elsewhere is to call this, and its parts' drops are proved here alone.
impl Drop for Node {
    fn drop(self) {
        let Node {
            action: _action,
            next: _,
            other: _,
            cases: _cases,
            body: _,
        } = self;
    }
}

impl Node {
    /// The number of the action that comes next where a test has this value, if any comes in this body.
    #[inline(always)]
    pub fn successor(&self, value: i32) -> Option<u32>
        ensures { result ≡ successor self.now value }
    {
        match self.cases.of(value) {
            Some(case) => case.to,
            None if value == 0 => self.other,
            None => self.next,
        }
    }
}
