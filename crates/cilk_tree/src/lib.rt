//! The canonical text of a program.
#![tactic(auto)]

mod expr;
mod head;
mod item;
mod line;
mod literal;
mod put;
mod stmt;

pub use item::canonical;
