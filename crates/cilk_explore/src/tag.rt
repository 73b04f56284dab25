//! Numbers that tell apart where logs lead. They promise nothing.

/// The numbers of the standing behind a log.
#[derive(Clone, Copy)]
pub(crate) struct Tag {
    /// It is the same where all is, but for the names of the workers.
    pub digest: u64,
    /// What all that lives comes to (`Machine::mixed`), by which that behind one choice more is found.
    pub mixed: u32,
}
