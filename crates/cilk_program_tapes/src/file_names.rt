//! The names of a program and of its log, as the lines of failures have them.

/// The names by which failures tell of a program's text and of a recorded schedule's.
#[derive(Clone, Copy)]
pub struct FileNames<'a> {
    /// The name of the text of the program.
    pub program: &'a str,
    /// The name of the text of the recorded schedule; empty where none is named.
    pub log: &'a str,
}
