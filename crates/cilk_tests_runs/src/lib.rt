//! The tests of what stands on a run or on a debugger: runs by several workers, steps whose expressions are evaluated without the lock, moves of a
//! debugger, and its sessions. They stand in a crate of their own, so that those of `cilk_tests` are proved before there is a debugger.
#![tactic(auto)]

#[cfg(test)]
mod debugging;
#[cfg(test)]
mod equal;
#[cfg(test)]
mod running;
#[cfg(test)]
mod sessions;
