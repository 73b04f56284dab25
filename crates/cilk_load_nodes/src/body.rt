//! The bodies of a program that runs: where each begins, and which variables and cells it has.

use crate::name::Name;
use crate::vars::Vars;
use cilk_model::Owner;

/// The body of a C function, a Cilk procedure or an inlet (Cilk 5.4 manual, `cilk`, `inlet`).
#[derive(Drop)]
pub struct Body {
    pub name: Name,
    /// Whose body it is.
    pub owner: Owner,
    /// The number of its first action.
    pub entry: u32,
    /// How many parameters it has.
    pub params: u32,
    /// How many cells an activation of it has.
    pub cells: u32,
    /// Its variables, parameters first.
    pub vars: Vars,
}
