//! The integers of the language, and expressions over the slots of a running procedure; and what an action comes to, once its expressions have their
//! values, or the first trap from the left, and that what the actions of a well-formed program use is there.
#![tactic(auto)]

mod arithmetic;
mod bytes;
mod effect;
mod effect_laws;
mod effects;
mod evaluate;
mod known;
mod laws;
mod listed;
mod printing;
mod reached;
mod seen;
mod soundness;
mod values;
mod written;

pub use arithmetic::{apply, unary};
pub use bytes::Bytes;
pub use cilk_frame::{
    Action, Area, Arguments, Await, BinOp, Code, CodeNode, LockAction, Memory, Receiver, Slot,
    SlotPlace, Slots, Taker, Target, Trap, UnOp,
};
pub use effect::Effect;
pub use effect_laws::effects_are_seen;
pub use effects::{assigned, effect_of};
pub use evaluate::eval;
pub use known::{Known, eval_known};
pub use laws::{
    plain_values_are_known, quotients_are_rounded, results_are_rounded, value_is_of_what_is_read,
};
pub use listed::Listed;
pub use reached::Reached;
pub use seen::{is_known_of, known_of};
pub use soundness::{
    actions_are_known, bodies_go_on, bodies_have_room, frames_have_actions, heads_are_there,
    reached_cells_are_there,
};
pub use values::{combined, held};
pub use written::Written;
