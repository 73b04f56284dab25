//! Schedules that take two accesses of a run in the other order, each of which is made again before it is told.

ghost use Rattle.std.specs.Prelude.{◌≡◌, ◌<◌, ◌≤◌, IfOk, IfSome, length, option_map, slice_index_or, true};
ghost use Rattle.std.specs.List.{All};
ghost use Rattle.cilk_log_replay.specs.Tape.{Tape};
ghost use Rattle.cilk_races.specs.Paired.{Within, no_touch, pair_of, pairs_told, touches_of};
ghost use Rattle.cilk_races.specs.PairWords.{touch_of};
ghost use Rattle.cilk_races.specs.Found.{HoldsRun, IsReversalOf};
ghost use Rattle.cilk_races.specs.Met.{AreWithin, meetings_in, reversal_by};
ghost use Rattle.cilk_races.specs.RacesText.{pairs_in};
ghost use Rattle.cilk_races.specs.Reversals.{AreReversed, IsMeetingOf, ReversesBy, times};

use crate::detour::{Goal, find_detour};
use crate::meeting::Meeting;
use crate::pairing::Pair;
use crate::races::{Races, watch_choices};
use crate::relation::Relation;
use crate::reversal::Reversal;
use crate::times::{is_again, times};
use crate::touch::Touch;
use crate::watch::Watch;
use cilk_log_replay::{Choice, Loaded, Memory, ReplayFault};
use std::alloc::{AllocError, Global};

// So many choices more than four times those of the run may such a schedule have.
const MORE: usize = 1000;

/// The entries of a run by these choices of so many workers, each race with a schedule that takes its accesses in the other order, where one is
/// found.
pub(crate) fn meetings_of(
    alloc: Global,
    races: &Races,
    workers: u8,
    choices: &[Choice],
) -> Result<Vec<Meeting>, Memory>
    requires { All (Within (length races.now.touches.items)) races.now.entries.items }
    ensures pairs { IfOk result (λ ms. pairs_in (meetings_in races.now.rows races.now.touches.items ms.items)
        ≡ pairs_told races.now.rows races.now.touches.items races.now.entries.items) }
    ensures within { IfOk result (λ ms. All (AreWithin (length races.now.touches.items)) ms.items) }
    ensures reversed { IfOk result (λ ms. (t : Tape) → HoldsRun t races.now
        → All (IsMeetingOf t) (meetings_in races.now.rows races.now.touches.items ms.items)) }
{
    let mut meetings = Vec::new(alloc);
    for entry in races.entries.as_slice() {
        let reversal = reversal_of(alloc, races, workers, choices, *entry)?;
        meetings.push(Meeting {
            pair: *entry,
            reversal,
        })?;
    }
    Ok(meetings)
}

// None is looked for where the accesses do not race.
fn reversal_of(
    alloc: Global,
    races: &Races,
    workers: u8,
    choices: &[Choice],
    entry: Pair,
) -> Result<Option<Reversal>, Memory>
    requires { Within (length races.now.touches.items) entry }
    ensures { IfOk result (λ r. (t : Tape) → HoldsRun t races.now
        → ReversesBy t (pair_of races.now.rows races.now.touches.items entry) (option_map reversal_by r)) }
{
    if !matches!(entry.relation, Relation::Race) {
        return Ok(None);
    }
    match schedule_of(alloc, races, workers, choices, entry) {
        Err(memory) => Err(memory),
        Ok(None) => Ok(None),
        Ok(Some(schedule)) => {
            let made = made_again(alloc, races, workers.max(2), schedule.as_slice(), entry);
            drop(schedule);
            made
        }
    }
}

// One that may take them so.
fn schedule_of(
    alloc: Global,
    races: &Races,
    workers: u8,
    choices: &[Choice],
    entry: Pair,
) -> Result<Option<Vec<Choice>>, Memory>
    requires { Within (length races.now.touches.items) entry }
{
    let touches = races.touches.as_slice();
    let goal = Goal {
        rows: &races.rows,
        touches,
        first: &touches[entry.first],
        second: &touches[entry.second],
    };
    let limit = choices.len().saturating_mul(4).saturating_add(MORE);
    match program_of(races) {
        Err(memory) => Err(memory),
        Ok(program) => find_detour(alloc, program, workers.max(2), choices, limit, goal),
    }
}

// How it ends, if it does take them so.
fn made_again(
    alloc: Global,
    races: &Races,
    workers: u8,
    schedule: &[Choice],
    entry: Pair,
) -> Result<Option<Reversal>, Memory>
    requires { Within (length races.now.touches.items) entry }
    ensures { IfOk result (λ r. (t : Tape) → HoldsRun t races.now
        → ReversesBy t (pair_of races.now.rows races.now.touches.items entry) (option_map reversal_by r)) }
{
    let program = match program_of(races) {
        Err(memory) => return Err(memory),
        Ok(program) => program,
    };
    match watch_choices(alloc, program, workers, schedule) {
        Err(ReplayFault::Memory) => Err(Memory::from(AllocError)),
        Err(_) => Ok(None),
        Ok(watch) => {
            let reversal = reversal_in(races, &watch, schedule.len(), workers, entry);
            drop(watch);
            reversal
        }
    }
}

fn program_of(races: &Races) -> Result<Loaded, Memory>
    ensures { IfOk result (λ program. program ≡ races.now.machine.program) }
{
    races.machine.loaded().copy()
}

// How the watch stands behind so many choices of so many workers, if it kept the accesses in the other order.
fn reversal_in(
    races: &Races,
    watch: &Watch,
    choices: usize,
    workers: u8,
    entry: Pair,
) -> Result<Option<Reversal>, Memory>
    requires { Within (length races.now.touches.items) entry }
    ensures { IfOk result (λ found. IfSome found (IsReversalOf races.now watch.now
        (pair_of races.now.rows races.now.touches.items entry) choices workers)) }
{
    if !are_reversed(races, watch, entry) {
        return Ok(None);
    }
    match watch.machine.end_now() {
        Err(memory) => Err(memory),
        Ok(end) => Ok(Some(Reversal {
            end,
            choices: choices as u64,
            workers,
        })),
    }
}

// Whether the accesses that the watch kept are in the other order: where the second was made as often as in the run the first was not, and it is
// made later.
fn are_reversed(races: &Races, watch: &Watch, entry: Pair) -> bool
    requires { Within (length races.now.touches.items) entry }
    ensures { result ≡ true → AreReversed (touches_of races.now.rows races.now.touches.items)
        (touches_of watch.now.rows watch.now.touches.items) (pair_of races.now.rows races.now.touches.items entry) }
{
    are_reversed_up_to(races, watch, entry, u64::MAX)
}

// It is made up to that choice.
fn are_reversed_up_to(races: &Races, watch: &Watch, entry: Pair, last: u64) -> bool
    requires { Within (length races.now.touches.items) entry }
    ensures { result ≡ true → AreReversed (touches_of races.now.rows races.now.touches.items)
        (touches_of watch.now.rows watch.now.touches.items) (pair_of races.now.rows races.now.touches.items entry) }
{
    let first = touch_at(races, entry.first);
    let second = touch_at(races, entry.second);
    let often = made_in_run(races, first);
    let wanted = made_in_run(races, second);
    match choice_of(races, watch, second, wanted) {
        None => false,
        Some(choice) => {
            let made = made_by(races, watch, second, choice);
            let before = made_by(races, watch, first, choice);
            let later = made_by(races, watch, first, last);
            are_so_often(wanted, made, before, often, later)
        }
    }
}

// An access of the run.
fn touch_at(races: &Races, at: usize) -> &Touch
    requires { at < length races.now.touches.items }
    ensures { touch_of races.now.rows result.now ≡ slice_index_or (touches_of races.now.rows races.now.touches.items) at no_touch }
{
    &races.touches[at]
}

fn are_so_often(wanted: usize, made: usize, before: usize, often: usize, later: usize) -> bool
    ensures { result ≡ true → (wanted ≤ made) × ((before < often) × (often ≤ later)) }
{
    wanted <= made && (before < often && often <= later)
}

// How often an access was made in the run, up to its own choice.
fn made_in_run(races: &Races, access: &Touch) -> usize
    ensures { result ≡ times (touch_of races.now.rows access.now) access.now.choice (touches_of races.now.rows races.now.touches.items) }
{
    times(
        &races.rows,
        access,
        access.choice,
        &races.rows,
        races.touches.as_slice(),
    )
}

// How often it was made up to a choice that the watch kept.
fn made_by(races: &Races, watch: &Watch, access: &Touch, choice: u64) -> usize
    ensures { result ≡ times (touch_of races.now.rows access.now) choice (touches_of watch.now.rows watch.now.touches.items) }
{
    times(
        &races.rows,
        access,
        choice,
        &watch.rows,
        watch.touches.as_slice(),
    )
}

// The choice by which an access was made so often that the watch kept.
fn choice_of(races: &Races, watch: &Watch, access: &Touch, wanted: usize) -> Option<u64> {
    let mut made = 0usize;
    for touch in watch.touches.as_slice() {
        if is_again(&races.rows, access, &watch.rows, touch) {
            made = made.saturating_add(1);
            if wanted <= made {
                return Some(touch.choice);
            }
        }
    }
    None
}
