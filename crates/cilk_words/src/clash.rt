//! Words that do not go together, though each is right by itself, and what is said of them.

ghost use Rattle.std.specs.Prelude.{◌≡◌, is_some};
ghost use Rattle.cilk_words.specs.CommandLine.{asked_by, clash_of, log_clash, runs_clash};

use crate::request::{Request, Task};

// The name that stands for standard input where a program is read.
const STANDARD: &str = "-";

const DASH_AS_PROGRAM: &str =
    "error: `-` cannot stand for F here: the commands are read from standard input

Usage: cilk debug [OPTIONS] <F> <G>

For more information, try '--help'.
";

const DASH_AS_LOG: &str = "error: `-` cannot stand for G: a log is a file

For more information, try '--help'.
";

const NO_SEED: &str =
    "error: '--runs <R>' needs '--seed <S>': several runs are those of S and the seeds behind it

For more information, try '--help'.
";

const LOG_OF_RUNS: &str =
    "error: '--log <G>' and '--runs <R>' do not go together: a log is that of one run

For more information, try '--help'.
";

/// Which words do not go together.
#[derive(Clone, Copy)]
pub enum Clash {
    /// A dash stands for the program, and commands are read from standard input.
    DashAsProgram,
    /// A dash stands for a log, which is a file.
    DashAsLog,
    /// Several runs are asked for, and no seed of the first.
    NoSeed,
    /// Several runs are asked for, and a log of one.
    LogOfRuns,
}

impl Clash {
    /// What is said of it.
    pub fn text(self) -> &'static str {
        match self {
            Clash::DashAsProgram => DASH_AS_PROGRAM,
            Clash::DashAsLog => DASH_AS_LOG,
            Clash::NoSeed => NO_SEED,
            Clash::LogOfRuns => LOG_OF_RUNS,
        }
    }

    /// What in a request does not go together.
    pub(crate) fn in_request(request: &Request<'_>) -> Option<Clash>
        ensures { result ≡ clash_of (asked_by request.now) }
    {
        match request.task {
            Task::Print | Task::Check | Task::Explore { .. } | Task::Serve => None,
            Task::Run {
                log,
                seed,
                runs,
                ..
            } => match runs {
                None => Clash::in_log(log?),
                Some(_) => Clash::in_runs(log.is_some(), seed.is_some()),
            },
            Task::Replay { log } => Clash::in_log(log),
            Task::Draw { log, .. } => Clash::in_log(log),
            Task::Measure { log } | Task::Races { log } => Clash::in_log(log?),
            Task::Debug { log } => {
                if request.name == STANDARD {
                    Some(Clash::DashAsProgram)
                } else {
                    Clash::in_log(log)
                }
            }
        }
    }

    fn in_log(log: &str) -> Option<Clash>
        ensures { result ≡ log_clash log.now }
    {
        if log == STANDARD {
            Some(Clash::DashAsLog)
        } else {
            None
        }
    }

    fn in_runs(has_log: bool, has_seed: bool) -> Option<Clash>
        ensures { result ≡ runs_clash has_log has_seed }
    {
        if !has_seed {
            return Some(Clash::NoSeed);
        }
        if has_log {
            Some(Clash::LogOfRuns)
        } else {
            None
        }
    }
}
