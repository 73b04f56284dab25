//! From the words of the command line to a request, or to why there is none.

ghost use Rattle.std.specs.Prelude.{◌≡◌, IfErr, IfOk, Some, codes, option_map};
ghost use Rattle.clap.specs.Words.{first_of, found_of, one_of, rows_of, subcommand_rows_of};
ghost use Rattle.cilk_words.specs.CommandLine.{asked, asked_by, draw_in, explore_in, is_set, pictured_by, request_of, request_of_any, run_in};
ghost use Rattle.cilk_words.specs.CommandLine.{text_for, texts_of, wanted_by, wanted_by_log, wanted_of, word_of};
ghost use Rattle.cilk_words.specs.Refusing.{IsNoRequest};

use crate::arguments::{
    EXPLAIN, FILE, FROM, LIMIT, LINES, LOG, LOGS, RUNS, SEED, TO, WORKERS, WRITTEN_LOG, parse,
};
use crate::clash::Clash;
use crate::refusal::NoRequest;
use crate::request::{Request, Task};
use clap::ArgMatches;
use std::alloc::Global;

/// What the words of a command line ask for, the first of which is the program's own name.
pub fn request_in<'a>(alloc: Global, words: &'a [String]) -> Result<Request<'a>, NoRequest>
    ensures request { IfOk result (λ r. asked (texts_of words.now) ≡ Some (asked_by r)) }
    ensures refusal { IfErr result (IsNoRequest (texts_of words.now)) }
{
    let matches = match parse(alloc, words) {
        Ok(matches) => matches,
        Err(error) => return Err(NoRequest::of_error(alloc, &error)),
    };
    let Some(request) = requested(&matches) else {
        // `clap` lets no words through without a subcommand that it was told of, and that one's text; were it to, they would ask for nothing.
        return Err(NoRequest::Usage(String::new(alloc)));
    };
    match Clash::in_request(&request) {
        Some(clash) => Err(NoRequest::Clash(clash)),
        None => Ok(request),
    }
}

fn requested<'a>(matches: &ArgMatches<'a>) -> Option<Request<'a>>
    ensures { option_map asked_by result ≡ request_of_any (subcommand_rows_of matches.now) }
{
    match matches.subcommand() {
        None => None,
        Some((name, found)) => request_named(name, found),
    }
}

fn request_named<'a>(name: &str, found: &ArgMatches<'a>) -> Option<Request<'a>>
    ensures { option_map asked_by result ≡ request_of (name.now, rows_of (found_of found.now)) }
{
    match task_named(name, found) {
        None => None,
        Some(task) => match text_for(name, found) {
            None => None,
            Some(name) => Some(Request {
                task,
                name,
                explain: flag_in(found, EXPLAIN),
            }),
        },
    }
}

fn task_named<'a>(name: &str, found: &ArgMatches<'a>) -> Option<Task<'a>>
    ensures { option_map wanted_by result ≡ wanted_of name.now (rows_of (found_of found.now)) }
{
    match name {
        "print" => Some(Task::Print),
        "check" => Some(Task::Check),
        "run" => run_in(found),
        "explore" => explore_in(found),
        "draw" => draw_in(found),
        "dap" => Some(Task::Serve),
        _ => task_by_log(name, log_in(found)),
    }
}

// The name of the text that a subcommand of this name is for. An editor that is answered names its texts later.
fn text_for<'a>(name: &str, found: &ArgMatches<'a>) -> Option<&'a str>
    ensures { option_map (λ text. text.now) result ≡ text_for name.now (rows_of (found_of found.now)) }
{
    match name {
        "dap" => Some(""),
        _ => text_in(found),
    }
}

// The text that is named, if one is.
fn text_in<'a>(found: &ArgMatches<'a>) -> Option<&'a str>
    ensures { option_map (λ name. name.now) result ≡ first_of (codes "F") (rows_of (found_of found.now)) }
{
    found.get_str(FILE)
}

// A task that a log may be named for.
fn task_by_log<'a>(name: &str, log: Option<&'a str>) -> Option<Task<'a>>
    ensures { option_map wanted_by result ≡ wanted_by_log name.now (option_map (λ log. log.now) log.entry) }
{
    match name {
        "replay" => match log {
            None => None,
            Some(log) => Some(Task::Replay { log }),
        },
        "measure" => Some(Task::Measure { log }),
        "races" => Some(Task::Races { log }),
        "debug" => match log {
            None => None,
            Some(log) => Some(Task::Debug { log }),
        },
        _ => None,
    }
}

// The log that is named, if one is.
fn log_in<'a>(found: &ArgMatches<'a>) -> Option<&'a str>
    ensures { option_map (λ name. name.now) result ≡ first_of (codes "G") (rows_of (found_of found.now)) }
{
    found.get_str(LOG)
}

fn run_in<'a>(found: &ArgMatches<'a>) -> Option<Task<'a>>
    ensures { option_map wanted_by result ≡ run_in (rows_of (found_of found.now)) }
{
    let workers = found.get_one(WORKERS)?;
    let limit = found.get_one(LIMIT)?;
    Some(Task::Run {
        workers,
        limit,
        log: found.get_str(WRITTEN_LOG),
        seed: word_in(found, SEED),
        runs: word_in(found, RUNS),
    })
}

fn explore_in<'a>(found: &ArgMatches<'a>) -> Option<Task<'a>>
    ensures { option_map wanted_by result ≡ explore_in (rows_of (found_of found.now)) }
{
    let workers: u8 = found.get_one(WORKERS)?;
    let limit: u32 = found.get_one(LIMIT)?;
    Some(Task::Explore {
        workers,
        limit,
        logs: found.get_str(LOGS),
    })
}

fn draw_in<'a>(found: &ArgMatches<'a>) -> Option<Task<'a>>
    ensures { option_map wanted_by result ≡ draw_in (rows_of (found_of found.now)) }
{
    let log = log_in(found);
    let from = word_in(found, FROM);
    let to = word_in(found, TO);
    let in_lines = flag_in(found, LINES);
    picture_by(log, from, to, in_lines)
}

// A picture of a log, where all of these are said.
fn picture_by<'a>(
    log: Option<&'a str>,
    from: Option<u32>,
    to: Option<u32>,
    in_lines: bool,
) -> Option<Task<'a>>
    ensures { option_map wanted_by result ≡ pictured_by (option_map (λ it. it.now) log.entry) from to in_lines }
{
    match log {
        None => None,
        Some(log) => match from {
            None => None,
            Some(from) => match to {
                None => None,
                Some(to) => Some(Task::Draw {
                    log,
                    from,
                    to,
                    in_lines,
                }),
            },
        },
    }
}

// The number of an option that may be left out.
fn word_in(found: &ArgMatches<'_>, name: &str) -> Option<u32>
    ensures { result ≡ word_of (one_of name.now (rows_of (found_of found.now))) }
{
    match found.get_one(name) {
        Some(number) => Some(number),
        None => None,
    }
}

// Whether a flag is given. `get_flag` says nothing of a text that is no `bool`.
fn flag_in(found: &ArgMatches<'_>, name: &str) -> bool
    ensures { result ≡ is_set (one_of name.now (rows_of (found_of found.now))) }
{
    found.get_one(name).unwrap_or(false)
}
