//! Programs read from their texts (C 1990, 6.5 to 6.8; Cilk 5.4 manual): one function for each rule of the grammar, of moves, statements, blocks,
//! inlets and the top level, and `read`, which goes from a text to its program.
#![tactic(auto)]

mod action;
mod arguments;
mod begins;
mod call_form;
mod child;
mod declaration;
mod fault;
mod function;
mod headers;
mod int_tail;
mod item;
mod items;
mod label;
pub mod laws;
mod lock;
mod loop_header;
mod main_function;
mod main_tail;
mod moves;
mod named;
mod parameter_list;
mod parameters;
mod place;
mod program;
mod right_side;
mod signed;
mod simple;
mod statement;
mod tail;
mod token;
mod value;
mod variable;
mod whole;
mod write_form;

pub use fault::ReadFault;
pub use program::read;
