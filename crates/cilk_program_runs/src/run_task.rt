//! What is asked of a run: the names of its texts, its workers, its limit and its seed, and whether faults and traps are explained.

ghost use Rattle.std.specs.Prelude.{◌≡◌, option_map};
ghost use Rattle.cilk_program_runs.specs.AsAsked.{log_name};

use cilk_program_tapes::FileNames;

/// How the program of a text is to be run.
#[derive(Clone, Copy)]
pub struct RunTask<'a> {
    /// The name of the text of the program.
    pub program: &'a str,
    /// The name of the text that the log goes to, where one is wanted.
    pub log: Option<&'a str>,
    /// Whether more is told of a fault in the program, and of a trap.
    pub explain: bool,
    /// The number of workers, 1 to 64.
    pub workers: u8,
    /// They make at most so many choices.
    pub limit: u32,
    /// The seed that names the schedule, if one does: then no thread is started.
    pub seed: Option<u32>,
    /// How many runs are to be made, by that seed and the ones behind it, where a tally of them is wanted.
    pub runs: Option<u32>,
}

impl<'a> RunTask<'a> {
    /// The names by which failures tell of its texts.
    pub(crate) fn names(&self) -> FileNames<'a>
        ensures program { result.program.now ≡ self.now.program.now }
        ensures log { result.log.now ≡ log_name (option_map (λ it. it.now) self.now.log) }
    {
        FileNames {
            program: self.program,
            log: self.log.unwrap_or(""),
        }
    }
}
