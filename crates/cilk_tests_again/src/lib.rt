//! Tests of calls that take memory, each made once more where a growth was refused. They stand in a crate of their own, beside `cilk_tests`, so that
//! both are proved side by side.
#![tactic(auto)]

#[cfg(test)]
mod again;
#[cfg(test)]
mod equal;
