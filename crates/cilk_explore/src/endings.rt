//! What is told of a log, where no choice is possible behind it.

ghost use Rattle.std.specs.Prelude.{◌≡◌, ◌≢◌, ℕ, true, false, map, Ok, Some, Decides, OnOk, slice_get};
ghost use Rattle.cilk_machine.specs.labelled.Bodies.{label};
ghost use Rattle.cilk_machine.specs.model.Run.{Position};
ghost use Rattle.cilk_explore.specs.explore.Ending.{IsOver};
ghost use Rattle.cilk_explore.specs.explore.Search as searches;
ghost use Rattle.cilk_explore.specs.Walks.{position_of};
ghost use Rattle.cilk_explore.specs.Telling.{ending_by, told_by, EndsBy, TellsFirst};
ghost use Rattle.cilk_explore.specs.LogLooking.{IsAmong, TellsOf};

use crate::told::{Told, is_same_end};
use crate::walker::Walker;
use cilk_machine::{End, Memory};
use std::alloc::{AllocError, Global};

/// Tells how the program ends where the walker stands, if no choice is possible there and no earlier log ended so. Whether none is possible.
pub(crate) fn tell(alloc: Global, walker: &Walker, told: &mut Vec<Told>) -> Result<bool, Memory>
    ensures tells { OnOk result (TellsOf (label walker.now.program) walker.now.workers walker.now.log (map told_by told.old.items)
        (map told_by told.new.items)) }
    ensures none { result ≡ Ok false → told.new ≡ told.old }
    ensures over { result ≡ Ok true → (at : Position) → position_of walker.now ≡ Some at → IsOver (label walker.now.program) at.standing }
{
    // Brings its clauses into the proof.
    let _log = walker.log();
    match walker.ending() {
        Err(memory) => Err(memory),
        Ok(None) => Ok(false),
        Ok(Some(end)) => {
            if is_told(told.as_slice(), &end, walker.output()) {
                Ok(true)
            } else {
                match tell_first(alloc, walker, end, told) {
                    Err(memory) => Err(memory),
                    Ok(()) => Ok(true),
                }
            }
        }
    }
}

// The first log with that end.
fn tell_first(alloc: Global, walker: &Walker, end: End, told: &mut Vec<Told>) -> Result<(), Memory>
    ensures { OnOk result (TellsFirst walker.now end (map told_by told.old.items) (map told_by told.new.items)) }
{
    let output = match Vec::from_slice(alloc, walker.output()) {
        Ok(output) => output,
        Err(_) => {
            drop(end);
            return Err(Memory::from(AllocError));
        }
    };
    let log = match Vec::from_slice(alloc, walker.log()) {
        Ok(log) => log,
        Err(_) => {
            drop(output);
            drop(end);
            return Err(Memory::from(AllocError));
        }
    };
    match told.push(Told { end, output, log }) {
        Ok(()) => Ok(()),
        Err(_) => Err(Memory::from(AllocError)),
    }
}

// Whether that ending is told.
fn is_told(told: &[Told], end: &End, output: &[u8]) -> bool
    ensures there { result ≡ true → IsAmong (map told_by told.now) (ending_by end.now output.now) }
    ensures none { result ≡ false → (j : ℕ) (one : searches.Told) → slice_get (map told_by told.now) j ≡ Some one
        → one.ending ≢ ending_by end.now output.now }
{
    for k in 0..told.len() {
        if has_ending(&told[k], end, output) {
            return true;
        }
    }
    false
}

fn has_ending(told: &Told, end: &End, output: &[u8]) -> bool
    ensures { Decides result (ending_by told.now.end told.now.output.items ≡ ending_by end.now output.now) }
{
    if !is_same_end(&told.end, end) {
        return false;
    }
    told.output.as_slice() == output
}
