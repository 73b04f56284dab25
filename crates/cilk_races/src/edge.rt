//! What a step is to another instance than its own.

/// In which way another instance follows a step.
#[derive(Clone, Copy)]
pub(crate) enum Edge {
    /// The step took its value.
    Taken,
    /// It waits for the step.
    Joined,
}
