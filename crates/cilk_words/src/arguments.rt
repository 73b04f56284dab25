//! The command line as `clap` is told it: subcommands, arguments, options, and the words of help.

ghost use Rattle.std.specs.Prelude.{◌≡◌, IfOk};
ghost use Rattle.clap.specs.Words.{FailsBy, app_of, fault_of, subcommand_of, subcommand_rows_of};
ghost use Rattle.cilk_words.specs.CommandLine.{bare, command_line, texts_of};

use crate::table::{Argument, Form, Subcommand, with_all};
use clap::builder::ValueParser;
use clap::{ArgMatches, Command, Error};
use std::alloc::{AllocError, Global};

/// The name of the argument that names the program's text.
pub const FILE: &str = "F";

/// The name of the argument that names a log to be read.
pub const LOG: &str = "G";

/// The name of the argument that says how many choices a run may make, or how many standings an exploration keeps.
pub const LIMIT: &str = "limit";

/// The name of the argument that names the log to be written of a run.
pub const WRITTEN_LOG: &str = "log";

/// The name of the argument that names the folder to which the logs of an exploration are written.
pub const LOGS: &str = "logs";

/// The name of the argument that names the schedule of a run.
pub const SEED: &str = "seed";

/// The name of the argument that says how many runs a tally is of.
pub const RUNS: &str = "runs";

/// The name of the flag by which more is said of what is wrong.
pub const EXPLAIN: &str = "explain";

/// The name of the argument that says how many workers a run has, or an exploration is of.
pub const WORKERS: &str = "workers";

/// The name of the argument that says with which choice a picture begins.
pub const FROM: &str = "from";

/// The name of the argument that says with which choice a picture ends.
pub const TO: &str = "to";

/// The name of the flag by which a picture is told in lines.
pub const LINES: &str = "text";

const VERSION: &str = "0.1.0";

// What the help of the program ends with.
const STATUSES: &str = "\
A run:
  run F --limit K    makes at most K choices, from 1 to 10,000,000 [default: 1,000,000]
  run F --log G      writes its log to the file G
  run F --seed S     has the schedule that S names, from 0 to 4,294,967,295, and starts no thread
  run F --seed S --runs R
                     tells which ends R runs have, 1 to 1,000,000, by S and the seeds behind it
  run F --workers N  has N workers, from 1 to 64 [default: 1]

An exploration:
  explore F --limit K    keeps at most K standings, from 1 to 10,000,000 [default: 1,000,000]
  explore F --logs D     writes a log of each outcome to the folder D, as D/1.log
  explore F --workers N  is of N workers, from 1 to 64 [default: 2]

A picture:
  draw F G --from K  begins with choice K, from 1 to 10,000,000 [default: 1]
  draw F G --to K    ends with choice K, from 1 to 10,000,000 [default: 10,000,000]
  draw F G --text    is told in lines, and not as an SVG

Exit status:
  0  done
  1  the program or the log is refused, or a picture would be too long
  2  the command line is wrong
  3  the run ended with a trap
  4  the run is stuck
  5  the run met its limit of choices, the log has no more, or the exploration met its limit of standings
  6  memory has run out
  7  a file cannot be read or written, or the input or the output failed
  8  the exploration found several outcomes, or the run has a race";

// What the help of a session ends with.
const COMMANDS: &str = "\
The commands of a session, one a line:
  step        makes the next choice
  back        takes the last choice back
  go K        goes to the position behind the first K choices
  next        goes on, behind the next choice that takes an action with a breakpoint
  prev        goes back, behind the last such choice before here
  break N     sets a breakpoint at action N
  clear N     takes it away
  where       shows the position, and where each worker goes on
  tree        shows every instance that was made, and what became of it
  frame PATH  shows the variables of an instance by its path, as /2/1; main is /
  globals     shows the variables and the locks of the top level
  deques      shows the hand and the deque of each worker
  output      shows what was printed
  list        shows the text, with the numbers of its lines and actions
  quit        ends the session";

// What the help of an adapter ends with.
const LAUNCH: &str = "\
What an editor's launch request tells:
  program      the program's text, a file
  log          the log of a run, a file
  stopOnEntry  whether to stop before the first choice [default: true]";

// How many workers there may be.
const CREW: ValueParser<'static> = ValueParser::Signed(1, 64);

// How many choices a run may make, how many standings an exploration may keep, and with which choices a picture may begin and end.
const MOST: ValueParser<'static> = ValueParser::Signed(1, 10_000_000);

// How many choices a run may make where nothing is said.
const CHOICES: &str = "1000000";

// How many standings an exploration may keep where nothing is said.
const STANDINGS: &str = "1000000";

// With which choice a picture begins where nothing is said.
const FIRST: &str = "1";

// With which it ends then: no log has more.
const LAST: &str = "10000000";

// The argument that names the program's text, which may stand on standard input.
const INPUT: Argument<'static> = Argument {
    id: FILE,
    form: Form::Place { required: true },
    help: "The program's text, or - for standard input",
};

// The same, where commands are read from standard input.
const TEXT: Argument<'static> = Argument {
    id: FILE,
    form: Form::Place { required: true },
    help: "The program's text",
};

const EXPLAINED: Argument<'static> = Argument {
    id: EXPLAIN,
    form: Form::Flag,
    help: "Says in more words what is wrong, and where",
};

const LOGGED: Argument<'static> = Argument {
    id: LOG,
    form: Form::Place { required: true },
    help: "The log of a run, a file",
};

const RUN: [Argument<'static>; 7] = [
    INPUT,
    EXPLAINED,
    Argument {
        id: WORKERS,
        form: Form::Number {
            value: "N",
            parser: CREW,
            default: Some("1"),
        },
        help: "How many workers the run has, from 1 to 64",
    },
    Argument {
        id: LIMIT,
        form: Form::Number {
            value: "K",
            parser: MOST,
            default: Some(CHOICES),
        },
        help: "At most so many choices are made, from 1 to 10,000,000",
    },
    Argument {
        id: SEED,
        form: Form::Number {
            value: "S",
            parser: ValueParser::Signed(0, 4_294_967_295),
            default: None,
        },
        help: "The run has the schedule that S names, from 0 to 4,294,967,295",
    },
    Argument {
        id: RUNS,
        form: Form::Number {
            value: "R",
            parser: ValueParser::Signed(1, 1_000_000),
            default: None,
        },
        help: "Tells which ends R runs have, 1 to 1,000,000, by S and the seeds behind it",
    },
    Argument {
        id: WRITTEN_LOG,
        form: Form::Text { value: "G" },
        help: "The file to which the log of the run is written",
    },
];

const EXPLORATION: [Argument<'static>; 5] = [
    INPUT,
    EXPLAINED,
    Argument {
        id: WORKERS,
        form: Form::Number {
            value: "N",
            parser: CREW,
            default: Some("2"),
        },
        help: "How many workers the outcomes are of, from 1 to 64",
    },
    Argument {
        id: LIMIT,
        form: Form::Number {
            value: "K",
            parser: MOST,
            default: Some(STANDINGS),
        },
        help: "At most so many standings are kept, from 1 to 10,000,000",
    },
    Argument {
        id: LOGS,
        form: Form::Text { value: "D" },
        help: "The folder to which a log of each outcome is written, as D/1.log",
    },
];

const RUN_OR_LOG: Argument<'static> = Argument {
    id: LOG,
    form: Form::Place { required: false },
    help: "The log of a run, a file [default: a run by one worker]",
};

const PICTURE: [Argument<'static>; 6] = [
    INPUT,
    EXPLAINED,
    LOGGED,
    Argument {
        id: FROM,
        form: Form::Number {
            value: "K",
            parser: MOST,
            default: Some(FIRST),
        },
        help: "The picture begins with choice K, from 1 to 10,000,000",
    },
    Argument {
        id: TO,
        form: Form::Number {
            value: "K",
            parser: MOST,
            default: Some(LAST),
        },
        help: "The picture ends with choice K, from 1 to 10,000,000",
    },
    Argument {
        id: LINES,
        form: Form::Flag,
        help: "Tells the picture in lines, and not as an SVG",
    },
];

const SUBCOMMANDS: [Subcommand<'static>; 10] = [
    Subcommand {
        name: "print",
        about: "Prints the canonical text of a program",
        arguments: &[INPUT, EXPLAINED],
        commands: None,
    },
    Subcommand {
        name: "check",
        about: "Says whether a program may be run",
        arguments: &[INPUT, EXPLAINED],
        commands: None,
    },
    Subcommand {
        name: "run",
        about: "Runs a program, and tells how it ends",
        arguments: &RUN,
        commands: None,
    },
    Subcommand {
        name: "explore",
        about: "Tells all outcomes of a program, whatever schedule its workers take",
        arguments: &EXPLORATION,
        commands: None,
    },
    Subcommand {
        name: "replay",
        about: "Makes the choices of a log again, and tells how they end",
        arguments: &[INPUT, EXPLAINED, LOGGED],
        commands: None,
    },
    Subcommand {
        name: "measure",
        about: "Tells the work and the span of a run, and other numbers of it",
        arguments: &[INPUT, EXPLAINED, RUN_OR_LOG],
        commands: None,
    },
    Subcommand {
        name: "races",
        about: "Tells which accesses of a run race, and how it ends with them the other way round",
        arguments: &[INPUT, EXPLAINED, RUN_OR_LOG],
        commands: None,
    },
    Subcommand {
        name: "draw",
        about: "Draws a log as one SVG: what each worker did, and what it changed",
        arguments: &PICTURE,
        commands: None,
    },
    Subcommand {
        name: "debug",
        about: "Answers commands on a log, read from standard input",
        arguments: &[TEXT, EXPLAINED, LOGGED],
        commands: Some(COMMANDS),
    },
    Subcommand {
        name: "dap",
        about: "Answers an editor by the Debug Adapter Protocol, over standard input and output",
        arguments: &[],
        commands: Some(LAUNCH),
    },
];

/// Which subcommand the words name, and with what.
pub fn parse<'a>(alloc: Global, words: &'a [String]) -> Result<ArgMatches<'a>, Error>
    ensures kinds { FailsBy (fault_of command_line (texts_of words.now)) result }
    ensures rows { IfOk result (λ m.
        subcommand_rows_of m ≡ subcommand_of command_line (texts_of words.now)) }
{
    let command = command(alloc)?;
    command.try_get_matches_from(words)
}

/// The command line: one level of subcommands.
pub fn command<'a>(alloc: Global) -> Result<Command<'a>, AllocError>
    ensures { IfOk result (λ c. app_of c ≡ command_line) }
{
    with_all(alloc, bare(alloc), &SUBCOMMANDS)
}

// The program, without its subcommands.
fn bare<'a>(alloc: Global) -> Command<'a>
    ensures { app_of result ≡ bare }
{
    Command::new(alloc, "cilk")
        .about("Reads and runs programs in Cilk 5.4")
        .version(VERSION)
        .after_help(STATUSES)
        .subcommand_required(true)
        .arg_required_else_help(true)
}
