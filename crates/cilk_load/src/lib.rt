//! The tables of a program that runs: what its names stand for, its actions as numbered nodes, with the lines on which they stand, its bodies, and
//! its variables and locks as slots; and that they are what the program means.
#![tactic(auto)]

mod acts;
mod binding;
mod building;
mod code;
mod counts;
mod entry;
mod exits;
mod fault;
mod file;
mod firsts;
mod globals;
mod labels;
mod lines;
mod loaded;
mod loading;
mod moves;
mod nearest;
mod nodes;
mod numbering;
mod outer;
mod pass;
mod room;
mod single;
mod symbol_table;
mod tables;
mod variables;

pub use cilk_load_nodes::{
    Action, Area, BinOp, Body, Checked, Code, CodeNode, Codes, Name, Node, Owner, Slot, SlotPlace,
    Slots, Taker, Target, Text, Trap, Var, Vars,
};
pub use cilk_tree_syntax::{LockAction, Memory};
pub use fault::LoadFault;
pub use loaded::Loaded;
pub use loading::{has_too_many, load};
