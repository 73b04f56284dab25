//! Writes the text of a recorded schedule.

ghost use Rattle.std.specs.Prelude.{◌≡◌, ◌++◌, ◌⊎◌, ◌↔◌, true, Some, None, Err, IfOk, IfErr, OnOk, codes, decimal, flat_map, map};
ghost use Rattle.cilk_sched.specs.Words.{choice_of, act_of};
ghost use Rattle.cilk_log.specs.Choices.{act_text, choice_text};
ghost use Rattle.cilk_log.specs.Text.{with_newline, workers_text, digest_text, end_text, lines_by, log_text, is_too_long};
ghost use Rattle.cilk_log.specs.Words.{log_of};

use crate::digest::digits_of;
use crate::fault::LogFault;
use crate::line::MOST_CHOICES;
use crate::log::Log;
use crate::writing_stretches::put_stretches;
use cilk_sched::{Act, Choice, Memory};
use itoa::Buffer;
use std::alloc::Global;

/// The text of a recorded schedule. Each has one, but where it tells of which program it is and has more than 10,000,000 choices.
pub fn write_log(alloc: Global, log: &Log) -> Result<Vec<u8>, LogFault>
    ensures text { IfOk result (λ text. text.items ≡ log_text (log_of log.now)) }
    ensures too_many { (result ≡ Err LogFault.TooMany) ↔ (is_too_long (log_of log.now) ≡ true) }
    ensures fault { IfErr result (λ why. (why ≡ LogFault.TooMany) ⊎ (why ≡ LogFault.Memory)) }
{
    if is_too_long(log) {
        return Err(LogFault::TooMany);
    }
    let mut text = Vec::new(alloc);
    match put_log(&mut text, log) {
        Err(_) => {
            drop(text);
            Err(LogFault::Memory)
        }
        Ok(()) => Ok(text),
    }
}

fn is_too_long(log: &Log) -> bool
    ensures { result ≡ is_too_long (log_of log.now) }
{
    match log.program {
        None => false,
        Some(_) => MOST_CHOICES < log.choices.len() as u64,
    }
}

#[tactic(auto, unfolding(crate::specs::Text::log_text))]
fn put_log(text: &mut Vec<u8>, log: &Log) -> Result<(), Memory>
    ensures { OnOk result (text.new.items ≡ text.old.items ++ log_text (log_of log.now)) }
{
    let choices = log.choices.as_slice();
    match &log.program {
        None => put_first_version(text, log.workers, choices),
        Some(digest) => put_second_version(text, digest, log.workers, choices),
    }
}

fn put_first_version(text: &mut Vec<u8>, workers: u8, choices: &[Choice]) -> Result<(), Memory>
    ensures { OnOk result
        (text.new.items ≡ text.old.items ++ flat_map with_newline (lines_by None workers (map choice_of choices.now))) }
{
    put(text, b"cilklog 1\n")?;
    put_workers(text, workers)?;
    for choice in choices {
        put_choice(text, *choice)?;
    }
    put_end(text, choices.len() as u64)
}

fn put_second_version(
    text: &mut Vec<u8>,
    digest: &[u8; 32],
    workers: u8,
    choices: &[Choice],
) -> Result<(), Memory>
    ensures { OnOk result
        (text.new.items ≡ text.old.items ++ flat_map with_newline (lines_by (Some digest.now) workers (map choice_of choices.now))) }
{
    put(text, b"cilklog 2\n")?;
    put_workers(text, workers)?;
    put_digest(text, digest)?;
    put_stretches(text, choices)?;
    put_end(text, choices.len() as u64)
}

fn put_workers(text: &mut Vec<u8>, workers: u8) -> Result<(), Memory>
    ensures { OnOk result (text.new.items ≡ text.old.items ++ with_newline (workers_text workers)) }
{
    put(text, b"workers ")?;
    put_number(text, u64::from(workers))?;
    put(text, b"\n")
}

fn put_digest(text: &mut Vec<u8>, digest: &[u8; 32]) -> Result<(), Memory>
    ensures { OnOk result (text.new.items ≡ text.old.items ++ with_newline (digest_text digest.now)) }
{
    put(text, b"program ")?;
    put(text, digits_of(digest).as_slice())?;
    put(text, b"\n")
}

fn put_end(text: &mut Vec<u8>, count: u64) -> Result<(), Memory>
    ensures { OnOk result (text.new.items ≡ text.old.items ++ with_newline (end_text count)) }
{
    put(text, b"end ")?;
    put_number(text, count)?;
    put(text, b"\n")
}

/// The line of a choice, behind what stands there.
pub(crate) fn put_choice(text: &mut Vec<u8>, choice: Choice) -> Result<(), Memory>
    ensures { OnOk result (text.new.items ≡ text.old.items ++ with_newline (choice_text (choice_of choice))) }
{
    put_number(text, u64::from(choice.worker))?;
    put_act(text, choice.act)?;
    text.push(b'\n')?;
    Ok(())
}

pub(crate) fn put_act(text: &mut Vec<u8>, act: Act) -> Result<(), Memory>
    ensures { OnOk result (text.new.items ≡ text.old.items ++ act_text (act_of act)) }
{
    match act {
        Act::Step => put(text, b" step"),
        Act::Pop => put(text, b" pop"),
        Act::Steal(victim) => {
            put(text, b" steal ")?;
            put_number(text, u64::from(victim))
        }
    }
}

pub(crate) fn put_number(text: &mut Vec<u8>, n: u64) -> Result<(), Memory>
    ensures { OnOk result (text.new.items ≡ text.old.items ++ decimal n) }
{
    let mut buffer = Buffer::new();
    put(text, buffer.format(n).as_bytes())
}

pub(crate) fn put(text: &mut Vec<u8>, bytes: &[u8]) -> Result<(), Memory>
    ensures { OnOk result (text.new.items ≡ text.old.items ++ bytes.now) }
{
    text.extend_from_slice(bytes)?;
    Ok(())
}
