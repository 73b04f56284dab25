//! Laws of texts: the canonical text of a program is made of its lexemes (`writing`), spells it again (`rereading`, `printing`), and has each action on
//! the line that is told of it (`actions`). Laws of runs, over every list of possible choices: what instances of a well-formed text go on with
//! (`heads`), an instance and its children (`children`), calls and inlets of a well-formed text (`calls`), and that a machine stands at one standing of
//! the definitions (`standings`).
#![tactic(auto)]

pub mod actions;
pub mod calls;
pub mod children;
pub mod heads;
pub mod printing;
pub mod rereading;
pub mod standings;
pub mod writing;
