//! The nodes, bodies and variables of a program that runs: what they are, and what they stand for in the labelled program.
#![tactic(auto)]

mod action;
mod area;
mod body;
mod case;
mod cases;
mod code;
mod codes;
mod copy;
mod laws;
mod length;
mod name;
mod node;
mod plain;
mod same;
mod slot;
mod slot_place;
mod slots;
mod taker;
mod target;
mod text;
mod var;
mod vars;

pub use action::Action;
pub use area::Area;
pub use body::Body;
pub use case::Case;
pub use cases::Cases;
pub use cilk_model::{BinOp, Checked, LockAction, Memory, Owner, Trap, UnOp};
pub use code::{Code, CodeNode};
pub use codes::Codes;
pub use laws::{
    bodies_have_tables, nodes_stand_for_lists, rows_are_nodes, rows_of_switches_are_nodes,
};
pub use name::Name;
pub use node::Node;
pub use slot::Slot;
pub use slot_place::SlotPlace;
pub use slots::Slots;
pub use taker::Taker;
pub use target::Target;
pub use text::Text;
pub use var::Var;
pub use vars::Vars;
