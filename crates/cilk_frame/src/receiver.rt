//! The receivers of children's values, with the subscripts and arguments that their spawns kept.

ghost use Rattle.std.specs.Prelude.{◌≡◌, Decides, IfOk};

use crate::arguments::Arguments;
use cilk_load_nodes::{BinOp, Memory, Slot};

/// What takes the value of a child that returns (Cilk 5.4 manual, `spawn`, `inlet`).
#[derive(Debug)]
pub enum Receiver {
    /// The value is dropped, as after `spawn f();`, or there is none.
    Nothing,
    /// An implicit inlet: the spawn assigns to a cell that was reached when it was acted.
    Place {
        /// That of `x += spawn f();`, and None for `x = spawn f();`.
        op: Option<BinOp>,
        /// The variable, among those of the parent's procedure or of the file.
        slot: Slot,
        /// The subscript that the spawn kept, or 0 where the variable is no array.
        index: u32,
        /// The number of the spawn.
        spawn: u32,
    },
    /// An inlet, which the spawn's action names.
    Call {
        /// The number of the spawn.
        n: u32,
        /// What the inlet's other parameters take, behind the value.
        args: Arguments,
    },
}

// To drop it elsewhere is to call this, and its parts' drops are proved here alone.
impl Drop for Receiver {
    fn drop(self) {
        match self {
            Receiver::Call { n: _, args: _args } => {}
            Receiver::Nothing
            | Receiver::Place {
                op: _,
                slot: _,
                index: _,
                spawn: _,
            } => {}
        }
    }
}

impl Receiver {
    /// Whether the other is equal.
    pub fn same(&self, other: &Receiver) -> bool
        ensures { Decides result (self.now ≡ other.now) }
    {
        match (self, other) {
            (Receiver::Nothing, Receiver::Nothing) => true,
            (
                Receiver::Place {
                    op,
                    slot,
                    index,
                    spawn,
                },
                Receiver::Place {
                    op: sign,
                    slot: place,
                    index: subscript,
                    spawn: number,
                },
            ) => {
                is_same_operator(*op, *sign)
                    && slot == place
                    && index == subscript
                    && spawn == number
            }
            (
                Receiver::Call { n, args },
                Receiver::Call {
                    n: number,
                    args: values,
                },
            ) => { n == number && args.same(values) }
            _ => false,
        }
    }

    /// An equal one.
    pub fn copy(&self) -> Result<Receiver, Memory>
        ensures { IfOk result (λ receiver. receiver ≡ self.now) }
    {
        match self {
            Receiver::Nothing => Ok(Receiver::Nothing),
            Receiver::Place {
                op,
                slot,
                index,
                spawn,
            } => Ok(Receiver::Place {
                op: *op,
                slot: *slot,
                index: *index,
                spawn: *spawn,
            }),
            Receiver::Call { n, args } => Ok(Receiver::Call {
                n: *n,
                args: args.copy()?,
            }),
        }
    }
}

fn is_same_operator(op: Option<BinOp>, other: Option<BinOp>) -> bool
    ensures { Decides result (op ≡ other) }
{
    match (op, other) {
        (None, None) => true,
        (Some(one), Some(another)) => one == another,
        _ => false,
    }
}
