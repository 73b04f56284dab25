//! What is asked of a replay, of the numbers or the races of a log, or of a session: the names of its texts, and whether what is wrong is explained.

use crate::file_names::FileNames;

/// How a log is to be replayed, its numbers or its races to be told, or commands on it to be answered.
#[derive(Clone, Copy)]
pub struct LogTask<'a> {
    /// The names by which failures tell of its texts.
    pub names: FileNames<'a>,
    /// Whether more is told of what is wrong.
    pub explain: bool,
}
