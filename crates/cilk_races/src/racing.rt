//! Which choices of a part of a run race.

ghost use Rattle.std.specs.Prelude.{length, IfErr};
ghost use Rattle.cilk_log_replay.specs.ReplayFaults.{IsFaultOf};
ghost use Rattle.cilk_log_replay.specs.Tape.{tape_of};
ghost use Rattle.cilk_races.specs.Paired.{Within};

use crate::pairing::{Pair, entries_of};
use crate::races::watch_choices;
use crate::racing_choices::RacingChoices;
use crate::relation::Relation;
use crate::telling::variable_of;
use crate::touch::Touch;
use crate::watch::Watch;
use cilk_log_replay::{Choice, Loaded, Memory, ReplayFault};
use std::alloc::Global;

/// Makes choices of so many workers again, and tells which of those behind the first `begin` race: of each variable and two actions the first two
/// that do, as `races_of` tells of all choices. Which ones they are no clause says.
pub fn racing_behind(
    alloc: Global,
    program: Loaded,
    workers: u8,
    choices: &[Choice],
    begin: usize,
) -> Result<Vec<RacingChoices>, ReplayFault>
    ensures { IfErr result (IsFaultOf (tape_of program workers choices.now)) }
{
    match watch_choices(alloc, program, workers, choices) {
        Err(fault) => Err(fault),
        Ok(watch) => {
            let racing = racing_in(alloc, &watch, begin as u64);
            drop(watch);
            match racing {
                Ok(racing) => Ok(racing),
                Err(_) => Err(ReplayFault::Memory),
            }
        }
    }
}

fn racing_in(alloc: Global, watch: &Watch, begin: u64) -> Result<Vec<RacingChoices>, Memory> {
    let touches = touches_behind(watch.touches.as_slice(), begin);
    let entries = entries_of(alloc, &watch.rows, touches)?;
    let mut racing = Vec::new(alloc);
    for entry in entries.as_slice() {
        push_race(&mut racing, watch.machine.loaded(), touches, *entry)?;
    }
    Ok(racing)
}

// The accesses of the choices behind the first `begin`.
fn touches_behind(touches: &[Touch], begin: u64) -> &[Touch] {
    for place in 0..touches.len() {
        if begin < touches[place].choice {
            return &touches[place..];
        }
    }
    &[]
}

// Adds an entry, if it is a race.
fn push_race(
    racing: &mut Vec<RacingChoices>,
    loaded: &Loaded,
    touches: &[Touch],
    entry: Pair,
) -> Result<(), Memory>
    requires { Within (length touches.now) entry }
{
    if !matches!(entry.relation, Relation::Race) {
        return Ok(());
    }
    let first = &touches[entry.first];
    let second = &touches[entry.second];
    let variable = String::from_str(*racing.allocator(), variable_of(loaded, first))?;
    racing.push(RacingChoices {
        first: first.choice,
        second: second.choice,
        variable,
    })?;
    Ok(())
}
