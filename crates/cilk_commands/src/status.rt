//! The statuses with which the program exits, and the number of each.

ghost use Rattle.std.specs.Prelude.{◌≡◌};

/// How a subcommand ended, as the status with which the program exits.
#[derive(Clone, Copy, PartialEq, Eq)]
pub enum Status {
    /// All is done, or help was asked for; of a run, `main` returned.
    Done,
    /// The text is no program that may be run, or the log none of it.
    Refused,
    /// The command line is wrong.
    Usage,
    /// The program was trapped.
    Trapped,
    /// The program has not ended, and no choice is possible.
    Stuck,
    /// The program has made all the choices that it might, and has not ended; or not all of its standings were looked at.
    Limit,
    /// Memory has run out.
    Memory,
    /// A file or the input failed, so that there is no text; or the commands of a session cannot be read any further.
    CannotRead,
    /// The output failed, so that a part of the answer may be written.
    CannotWrite,
    /// The recorded schedule cannot be written, so that there is no answer.
    CannotRecord,
    /// A worker cannot be started.
    CannotStart,
    /// The program has several outcomes, or the run has a race.
    Several,
}

impl Status {
    ghost use Rattle.cilk_commands.specs.Status.{code_of};

    /// The number that the program exits with.
    pub fn code(self) -> u8
        ensures { result ≡ code_of self }
    {
        match self {
            Status::Done => 0,
            Status::Refused => 1,
            Status::Usage => 2,
            Status::Trapped => 3,
            Status::Stuck => 4,
            Status::Limit => 5,
            Status::Memory => 6,
            Status::CannotRead | Status::CannotWrite | Status::CannotRecord | Status::CannotStart =>
                7,
            Status::Several => 8,
        }
    }
}
