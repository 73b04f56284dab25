//! The tests of what the built program does not show, of reading, recording, machines and their parts. They stand in a crate of their own, since one that
//! has tests is proved once more with them; those of runs and debuggers stand in another. Beside them stands whether two trees say the same (`alike.rt`),
//! which they alone ask.
#![tactic(auto)]

pub mod alike;
#[cfg(test)]
mod equal;
#[cfg(test)]
mod front;
#[cfg(test)]
mod recorded;
#[cfg(test)]
mod running;
