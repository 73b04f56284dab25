//! Recorded schedules as values: a number of workers, their choices, and of which program they are.

ghost use Rattle.std.specs.Prelude.{◌≡◌};
ghost use Rattle.cilk_log.specs.Naming.{is_of};

use crate::choices::Choices;
use crate::digest::program_of;

/// A recorded schedule: for so many workers, the choices that were made.
#[derive(Debug, Drop)]
pub struct Log {
    /// The digest of the canonical text of the program, as `program_of` takes it, where the schedule tells of which it is: its text is of
    /// version 2 then, and else of version 1.
    pub program: Option<[u8; 32]>,
    /// The number of workers.
    pub workers: u8,
    pub choices: Choices,
}

impl Log {
    /// Whether it may be of the program of this canonical text: it tells of none, or of that one. It takes no memory.
    pub fn is_of(&self, text: &str) -> bool
        ensures { result ≡ is_of self.now.program text.now }
    {
        match &self.program {
            None => true,
            Some(digest) => *digest == program_of(text),
        }
    }
}
