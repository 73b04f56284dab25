//! What is asked of an exploration: the names of its texts, its workers and its limit, and whether faults are explained.

ghost use Rattle.std.specs.Prelude.{◌≡◌, option_map};
ghost use Rattle.cilk_program_runs.specs.AsAsked.{log_name};

/// How the outcomes of the program of a text are to be looked for.
#[derive(Clone, Copy)]
pub struct ExploreTask<'a> {
    /// The name of the text of the program.
    pub program: &'a str,
    /// The name of the folder that the logs go to, where they are wanted.
    pub logs: Option<&'a str>,
    /// Whether more is told of a fault in the program.
    pub explain: bool,
    /// The number of workers, 1 to 64.
    pub workers: u8,
    /// At most so many standings are kept.
    pub limit: u32,
}

impl<'a> ExploreTask<'a> {
    /// The name by which a failure tells of the folder.
    pub(crate) fn folder(&self) -> &'a str
        ensures { result.now ≡ log_name (option_map (λ it. it.now) self.now.logs) }
    {
        self.logs.unwrap_or("")
    }
}
