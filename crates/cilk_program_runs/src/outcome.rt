//! The outcomes of a program, in the order in which their logs are found.

ghost use Rattle.std.specs.Prelude.{◌≡◌, ◌<◌, length, map, Some, slice_get};
ghost use Rattle.cilk_explore.specs.Telling.{told_by};
ghost use Rattle.cilk_run.specs.choices.Words.{act_of, choice_of};
ghost use Rattle.cilk_program_runs.specs.Outcomes.{before_by, before_endless, comes_before, stands_before, is_tried_before, log_in, order_of};
ghost use Rattle.cilk_program_runs.specs.Outcomes.{outcome_by, outcomes_by};

use cilk_explore::{Choice, Exploration, Told};
use cilk_run::Act;

/// One of them.
#[derive(Clone, Copy)]
pub(crate) enum Outcome<'a> {
    /// An ending, with a log that leads to it.
    Ended(&'a Told),
    /// A log behind which the program never ends.
    Endless(&'a [Choice]),
}

/// The choices that lead to it.
pub(crate) fn log_in<'a>(outcome: Outcome<'a>) -> &'a [Choice]
    ensures { map choice_of result.now ≡ log_in (outcome_by outcome.entry) }
{
    match outcome {
        Outcome::Ended(told) => told.log.as_slice(),
        Outcome::Endless(log) => log,
    }
}

/// How many there are.
pub(crate) fn outcome_count(exploration: &Exploration) -> usize
    ensures { result ≡ length (outcomes_by exploration.now) }
{
    match &exploration.endless {
        None => exploration.told.len(),
        Some(_) => exploration.told.len() + 1,
    }
}

/// The one of this number, counted from 0, where so many endings stand before the log without an end.
pub(crate) fn outcome_at<'a>(exploration: &'a Exploration, before: usize, k: usize) -> Outcome<'a>
    requires before { before ≡ before_by exploration.now }
    requires there { k < length (outcomes_by exploration.now) }
    ensures { slice_get (outcomes_by exploration.now) k ≡ Some (outcome_by result) }
{
    if k < before {
        return Outcome::Ended(&exploration.told[k]);
    }
    match &exploration.endless {
        None => Outcome::Ended(&exploration.told[k]),
        Some(log) => {
            if k == before {
                Outcome::Endless(log.as_slice())
            } else {
                Outcome::Ended(&exploration.told[k - 1])
            }
        }
    }
}

/// How many endings stand before the log without an end: all, where there is none.
pub(crate) fn endings_before(exploration: &Exploration) -> usize
    ensures { result ≡ before_by exploration.now }
{
    match &exploration.endless {
        None => exploration.told.len(),
        Some(log) => before_endless(exploration.told.as_slice(), log.as_slice()),
    }
}

fn before_endless(told: &[Told], log: &[Choice]) -> usize
    ensures { result ≡ before_endless (map choice_of log.now) (map told_by told.now) }
{
    for k in 0..told.len() {
        if !stands_before(told[k].log.as_slice(), log) {
            return k;
        }
    }
    told.len()
}

// Whether a search finds one log before another.
fn stands_before(log: &[Choice], other: &[Choice]) -> bool
    ensures { result ≡ stands_before (map choice_of log.now) (map choice_of other.now) }
{
    if log.len() == other.len() {
        comes_before(log, other)
    } else {
        log.len() < other.len()
    }
}

// So of two that have as many choices.
fn comes_before(log: &[Choice], other: &[Choice]) -> bool
    requires { length log.now ≡ length other.now }
    ensures { result ≡ comes_before (map choice_of log.now) (map choice_of other.now) }
{
    for k in 0..log.len() {
        if is_tried_before(log[k], other[k]) {
            return true;
        }
        if is_tried_before(other[k], log[k]) {
            return false;
        }
    }
    false
}

fn is_tried_before(choice: Choice, other: Choice) -> bool
    ensures { result ≡ is_tried_before (choice_of choice) (choice_of other) }
{
    if choice.worker == other.worker {
        order_of(choice.act) < order_of(other.act)
    } else {
        choice.worker < other.worker
    }
}

fn order_of(act: Act) -> u16
    ensures { result ≡ order_of (act_of act) }
{
    match act {
        Act::Step => 0,
        Act::Pop => 1,
        Act::Steal(victim) => u16::from(victim) + 2,
    }
}
