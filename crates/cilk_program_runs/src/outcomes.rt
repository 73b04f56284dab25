//! How the outcomes of a program are told.

ghost use Rattle.std.specs.Prelude.{◌≡◌, ◌++◌, IfOk, OnOk, string_bytes};
ghost use Rattle.cilk_explore.specs.Telling.{told_by};
ghost use Rattle.cilk_program_runs.specs.Exploring.{ended_text, endless_text, exploration_text, outcome_line, outcome_text, outcomes_text};
ghost use Rattle.cilk_program_runs.specs.Exploring.{more_words, plural, summary, whole_words};
ghost use Rattle.cilk_program_runs.specs.Outcomes.{outcome_by, outcomes_by};

use crate::outcome::{Outcome, endings_before, log_in, outcome_at, outcome_count};
use cilk_explore::{Exploration, Told};
use cilk_program_tapes::Memory;
use cilk_run::ending;
use std::alloc::{AllocError, Global};

/// Each outcome, as a run with its log tells it, behind a line with its number, or that it has no end; and at last how many there are, whether all was
/// looked at, and whether it is so of more workers too.
pub(crate) fn text_of(
    alloc: Global,
    workers: u8,
    exploration: &Exploration,
) -> Result<Vec<u8>, Memory>
    ensures { IfOk result (λ text. text.items
        ≡ exploration_text workers exploration.now.whole exploration.now.or_more (outcomes_by exploration.now)) }
{
    let mut out = Vec::new(alloc);
    match put_all(&mut out, workers, exploration) {
        Ok(()) => Ok(out),
        Err(memory) => {
            drop(out);
            Err(memory)
        }
    }
}

fn put_all(out: &mut Vec<u8>, workers: u8, exploration: &Exploration) -> Result<(), Memory>
    ensures { OnOk result (out.new.items ≡ out.old.items
        ++ exploration_text workers exploration.now.whole exploration.now.or_more (outcomes_by exploration.now)) }
{
    put_outcomes(out, exploration)?;
    let count = outcome_count(exploration) as u64;
    let line = summary_of(*out.allocator(), exploration, count, workers)?;
    out.extend_from_slice(line.as_bytes())?;
    Ok(())
}

fn put_outcomes(out: &mut Vec<u8>, exploration: &Exploration) -> Result<(), Memory>
    ensures { OnOk result (out.new.items ≡ out.old.items ++ outcomes_text 1 (outcomes_by exploration.now)) }
{
    let before = endings_before(exploration);
    let count = outcome_count(exploration);
    for k in 0..count {
        put_outcome(out, k as u64 + 1, outcome_at(exploration, before, k))?;
    }
    Ok(())
}

fn put_outcome(out: &mut Vec<u8>, number: u64, outcome: Outcome<'_>) -> Result<(), Memory>
    ensures { OnOk result (out.new.items ≡ out.old.items ++ outcome_text number (outcome_by outcome.entry)) }
{
    let choices = log_in(outcome).len() as u64;
    let line = outcome_line(*out.allocator(), number, choices)?;
    out.extend_from_slice(line.as_bytes())?;
    match outcome {
        Outcome::Ended(told) => put_ending(out, told),
        Outcome::Endless(_) => put_endless(out, choices),
    }
}

// What a run with that log tells.
fn put_ending(out: &mut Vec<u8>, told: &Told) -> Result<(), Memory>
    ensures { OnOk result (out.new.items ≡ out.old.items ++ ended_text (told_by told.now)) }
{
    let choices = told.log.len() as u64;
    let text = ending(*out.allocator(), told.output.as_slice(), &told.end, choices)?;
    out.extend_from_slice(text.as_slice())?;
    Ok(())
}

// That the program never ends behind so many choices.
fn put_endless(out: &mut Vec<u8>, choices: u64) -> Result<(), Memory>
    ensures { OnOk result (out.new.items ≡ out.old.items ++ endless_text choices) }
{
    let line = endless_line(*out.allocator(), choices)?;
    out.extend_from_slice(line.as_bytes())?;
    Ok(())
}

fn endless_line(alloc: Global, choices: u64) -> Result<String, AllocError>
    ensures { IfOk result (λ line. string_bytes line ≡ endless_text choices) }
{
    let behind = plural(choices);
    format!(in alloc; "no end after {choices} choice{behind}\n")
}

fn outcome_line(alloc: Global, number: u64, choices: u64) -> Result<String, AllocError>
    ensures { IfOk result (λ line. string_bytes line ≡ outcome_line number choices) }
{
    let behind = plural(choices);
    format!(in alloc; "outcome {number}, {choices} choice{behind}\n")
}

fn summary_of(
    alloc: Global,
    exploration: &Exploration,
    count: u64,
    workers: u8,
) -> Result<String, AllocError>
    ensures { IfOk result (λ line. string_bytes line ≡ summary exploration.now.whole exploration.now.or_more count workers) }
{
    let front = whole_words(exploration.whole);
    let behind = plural(count);
    let last = plural(u64::from(workers));
    let more = more_words(exploration.or_more);
    format!(in alloc; "{front}{count} outcome{behind} of {workers} worker{last}{more}\n")
}

fn whole_words(is_whole: bool) -> &'static str
    ensures { result.now ≡ whole_words is_whole }
{
    if is_whole {
        "all was looked at: "
    } else {
        "not all was looked at: "
    }
}

// What stands behind the number of workers, where it is so of each larger number too.
fn more_words(is_so: bool) -> &'static str
    ensures { result.now ≡ more_words is_so }
{
    if is_so { " or more" } else { "" }
}

// What stands behind a word of which there are so many.
fn plural(count: u64) -> &'static str
    ensures { result.now ≡ plural count }
{
    if count == 1 { "" } else { "s" }
}
