//! Reads the text of a recorded schedule.

ghost use Rattle.std.specs.Prelude.{◌≡◌, ◌+◌, ◌<◌, ◌^◌, List, Some, length, map, Ok, IfOk};
ghost use Rattle.cilk_sched.specs.model.Choice as model;
ghost use Rattle.cilk_sched.specs.Words.{choice_of};
ghost use Rattle.cilk_log.specs.Text as text;
ghost use Rattle.cilk_log.specs.Text.{LogFits, log_text};
ghost use Rattle.cilk_log.specs.Reading.{lines_of, told_in, count_in, counted, ended, choices_read, workers_read, second_read, third_read, log_read};
ghost use Rattle.cilk_log.specs.Words.{log_of, ReadsAs};

use crate::choices::Choices;
use crate::digest::program_in;
use crate::fault::LogFault;
use crate::line::{choice_in, count_in, split_line, step_in_front, workers_in};
use crate::log::Log;
use crate::reading_stretches::read_stretches;
use std::alloc::Global;

/// The recorded schedule of which this is the text, or what is wrong first, from the top.
pub fn read_log(alloc: Global, bytes: &[u8]) -> Result<Log, LogFault>
    ensures read { IfOk result (λ log. bytes.now ≡ log_text (log_of log)) }
    ensures only { (log : text.Log) → LogFits log → bytes.now ≡ log_text log → ReadsAs log_of result (Ok log) }
    ensures exact { ReadsAs log_of result (log_read bytes.now) }
{
    read_lines(alloc, bytes)
}

#[tactic(auto, unfolding(crate::specs::Reading::log_read))]
fn read_lines(alloc: Global, bytes: &[u8]) -> Result<Log, LogFault>
    ensures { ReadsAs log_of result (log_read bytes.now) }
{
    match split_line(bytes) {
        None => Err(LogFault::Truncated),
        Some((line, rest)) => {
            if line == b"cilklog 1".as_slice() {
                return read_workers(alloc, rest);
            }
            if line == b"cilklog 2".as_slice() {
                return read_second(alloc, rest);
            }
            Err(LogFault::Version)
        }
    }
}

fn read_workers(alloc: Global, text: &[u8]) -> Result<Log, LogFault>
    ensures { ReadsAs log_of result (workers_read (lines_of text.now).whole (lines_of text.now).rest) }
{
    match split_line(text) {
        None => Err(LogFault::Truncated),
        Some((line, rest)) => match workers_in(line) {
            None => Err(LogFault::Line(2)),
            Some(workers) => read_choices_for(alloc, workers, rest),
        },
    }
}

fn read_choices_for(alloc: Global, workers: u8, text: &[u8]) -> Result<Log, LogFault>
    ensures { ReadsAs log_of result (choices_read (Some workers) (lines_of text.now).whole (lines_of text.now).rest) }
{
    match read_choices(alloc, text) {
        Err(fault) => Err(fault),
        Ok(choices) => Ok(Log {
            program: None,
            workers,
            choices,
        }),
    }
}

// The lines of version 2 behind the first one.
fn read_second(alloc: Global, text: &[u8]) -> Result<Log, LogFault>
    ensures { ReadsAs log_of result (second_read (lines_of text.now).whole (lines_of text.now).rest) }
{
    match split_line(text) {
        None => Err(LogFault::Truncated),
        Some((line, rest)) => match workers_in(line) {
            None => Err(LogFault::Line(2)),
            Some(workers) => read_third(alloc, workers, rest),
        },
    }
}

fn read_third(alloc: Global, workers: u8, text: &[u8]) -> Result<Log, LogFault>
    ensures { ReadsAs log_of result (third_read (Some workers) (lines_of text.now).whole (lines_of text.now).rest) }
{
    match split_line(text) {
        None => Err(LogFault::Truncated),
        Some((line, rest)) => match program_in(line) {
            None => Err(LogFault::Line(3)),
            Some(digest) => match read_stretches(alloc, rest) {
                Err(fault) => Err(fault),
                Ok(choices) => Ok(Log {
                    program: Some(digest),
                    workers,
                    choices,
                }),
            },
        },
    }
}

#[inline(never)]
fn read_choices(alloc: Global, text: &[u8]) -> Result<Choices, LogFault>
    ensures { ReadsAs (λ choices. map choice_of choices) result
        (ended (length (told_in (lines_of text.now).whole).choices + 3) (told_in (lines_of text.now).whole).choices
        (told_in (lines_of text.now).whole).others (lines_of text.now).rest) }
{
    let mut choices = Choices::new(alloc);
    let mut rest = text;
    loop {
        let (choice, behind) = match step_in_front(rest) {
            Some(found) => found,
            None => match split_line(rest) {
                None => return Err(LogFault::Truncated),
                Some((line, behind)) => match choice_in(line) {
                    None => {
                        let count = choices.len() as u64;
                        return match closing(count, count + 3, line, behind) {
                            Err(fault) => Err(fault),
                            Ok(()) => Ok(choices),
                        };
                    }
                    Some(choice) => (choice, behind),
                },
            },
        };
        if choices.push(choice).is_err() {
            return Err(LogFault::Memory);
        }
        rest = behind;
    }
}

/// The line of this number, behind so many choices, tells how many they are, and nothing stands behind it.
pub(crate) fn closing(count: u64, number: u64, line: &[u8], behind: &[u8]) -> Result<(), LogFault>
    requires { number + 1 < 2 ^ 64 }
    ensures { (choices : List model.Choice) → length choices ≡ count
        → ReadsAs (λ _. choices) result (counted (count_in line.now) number (lines_of behind.now).whole (lines_of behind.now).rest choices) }
{
    match count_in(line) {
        None => Err(LogFault::Line(number)),
        Some(told) => {
            if told != count {
                return Err(LogFault::Count);
            }
            if !behind.is_empty() {
                return Err(LogFault::Line(number + 1));
            }
            Ok(())
        }
    }
}
