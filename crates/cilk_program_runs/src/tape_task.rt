//! What is asked of the subcommands that tell something of all choices of a schedule.

/// Of which schedule something is to be told.
#[derive(Clone, Copy)]
pub struct TapeTask<'a> {
    /// The name of the text of the program.
    pub program: &'a str,
    /// The name of the text of the recorded schedule, where one is named.
    pub log: Option<&'a str>,
    /// Whether more is told of what is wrong.
    pub explain: bool,
}
