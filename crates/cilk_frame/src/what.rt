//! The views that there are, and the path that one of them needs.

use crate::path::Path;

/// A view of a program that runs, named by the command of a session that asks for it.
#[derive(Debug, Drop)]
pub enum What {
    /// Each instance ever made.
    Tree,
    /// The activations of the live instance with this path.
    Frame(Path),
    /// The variables and locks of the top level.
    Globals,
    /// The hand and the deque of each worker.
    Deques,
    /// What was printed.
    Output,
    /// Where each worker goes on.
    Where,
    /// The canonical text with the numbers of its lines and actions.
    List,
}
