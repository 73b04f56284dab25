//! What workers may do, and one of several that is drawn.

ghost use Rattle.std.specs.Prelude.{◌≡◌, ◌≢◌, ◌≤◌, ◌<◌, ◌^◌, ◌++◌, ◌∷◌, ◌||◌, [], cond, if◌then◌else◌, length};
ghost use Rattle.std.specs.Prelude.{nat_lt, not, slice_index_or, IfNone, IfOk, IfSome, OnOk};
ghost use Rattle.cilk_run.specs.choices.Words.{act_of};
ghost use Rattle.cilk_run.specs.labelled.Bodies.{label};
ghost use Rattle.cilk_run.specs.machine.Stands.{StandsAt};
ghost use Rattle.cilk_run.specs.model.Run.{Standing};
ghost use Rattle.cilk_run.specs.model.State.{is_empty};
ghost use Rattle.cilk_run.specs.Drawn.{can, can_move, movers, one_of, state_behind, victims};
ghost use Rattle.cilk_run.specs.Generator.{drawn_below, next_state};

use crate::generator::SplitMix;
use cilk_run_locked::{Act, Choice, Machine};
use std::alloc::AllocError;

/// Whether the worker may do so.
pub(crate) fn can(machine: &Machine, worker: u8, act: Act) -> bool
    ensures { (at : Standing) → StandsAt machine.now at → result ≡ can (label machine.now.program) at worker (act_of act) }
{
    match machine.refusal(Choice { worker, act }) {
        None => true,
        Some(_) => false,
    }
}

/// Finds the workers from whom this one may steal, of so many.
pub(crate) fn find_victims(
    machine: &Machine,
    workers: u8,
    worker: u8,
    found: &mut Vec<u8>,
) -> Result<(), AllocError>
    ensures found { OnOk result ((at : Standing) → StandsAt machine.now at
        → found.new.items ≡ victims (label machine.now.program) workers at worker) }
    ensures few { OnOk result (length found.new.items ≤ workers) }
{
    found.clear();
    for before in 0..workers {
        let may = can(machine, worker, Act::Steal(before + 1));
        push_if(found, before + 1, may)?;
    }
    Ok(())
}

/// Finds the workers that may do anything, of so many. What is in `spare` means nothing.
pub(crate) fn find_movers(
    machine: &Machine,
    workers: u8,
    found: &mut Vec<u8>,
    spare: &mut Vec<u8>,
) -> Result<(), AllocError>
    ensures found { OnOk result ((at : Standing) → StandsAt machine.now at → found.new.items ≡ movers (label machine.now.program) workers at) }
    ensures few { OnOk result (length found.new.items ≤ workers) }
{
    found.clear();
    for before in 0..workers {
        let may = can_move(machine, workers, before + 1, spare)?;
        push_if(found, before + 1, may)?;
    }
    Ok(())
}

fn can_move(
    machine: &Machine,
    workers: u8,
    worker: u8,
    spare: &mut Vec<u8>,
) -> Result<bool, AllocError>
    ensures { IfOk result (λ may. (at : Standing) → StandsAt machine.now at → may ≡ can_move (label machine.now.program) workers at worker) }
{
    let steps = can(machine, worker, Act::Step);
    let pops = can(machine, worker, Act::Pop);
    let steals = has_victim(machine, workers, worker, spare)?;
    Ok(any(steps, pops, steals))
}

fn any(steps: bool, pops: bool, steals: bool) -> bool
    ensures { result ≡ (steps || (pops || steals)) }
{
    steps || pops || steals
}

// Whether the worker may steal from anyone.
fn has_victim(
    machine: &Machine,
    workers: u8,
    worker: u8,
    spare: &mut Vec<u8>,
) -> Result<bool, AllocError>
    ensures { IfOk result (λ has. (at : Standing) → StandsAt machine.now at
        → has ≡ not (is_empty (victims (label machine.now.program) workers at worker))) }
{
    find_victims(machine, workers, worker, spare)?;
    Ok(is_some(spare.as_slice()))
}

fn is_some(found: &[u8]) -> bool
    ensures { result ≡ not (is_empty found.now) }
{
    match found.first() {
        None => false,
        Some(_) => true,
    }
}

fn push_if(found: &mut Vec<u8>, worker: u8, may: bool) -> Result<(), AllocError>
    ensures { OnOk result (found.new.items ≡ found.old.items ++ cond may (worker ∷ []) []) }
{
    if may {
        found.push(worker)?;
    }
    Ok(())
}

/// One of these, if there is any, which is drawn where there are several.
pub(crate) fn any_of(found: &[u8], generator: &mut SplitMix) -> Option<u8>
    requires { length found.now < 2 ^ 32 }
    ensures none { IfNone result (found.now ≡ []) }
    ensures some { IfSome result (λ worker. found.now ≢ []) }
    ensures value { IfSome result (λ worker. worker ≡ one_of found.now generator.old) }
    ensures state { IfSome result (λ worker. generator.new ≡ state_behind found.now generator.old) }
{
    match found.first() {
        None => None,
        Some(_) => Some(one_of(found, generator)),
    }
}

/// One of these, which is drawn where there are several; 0 where there is none.
pub(crate) fn one_of(found: &[u8], generator: &mut SplitMix) -> u8
    requires { length found.now < 2 ^ 32 }
    ensures value { result ≡ one_of found.now generator.old }
    ensures state { generator.new ≡ state_behind found.now generator.old }
{
    let place = place_in(found.len(), generator);
    at(found, place)
}

// One of so many places.
fn place_in(count: usize, generator: &mut SplitMix) -> usize
    requires { count < 2 ^ 32 }
    ensures value { result ≡ (if nat_lt 1 count then drawn_below count generator.old else 0) }
    ensures state { generator.new ≡ (if nat_lt 1 count then next_state generator.old else generator.old) }
{
    if count > 1 {
        generator.below(count as u32) as usize
    } else {
        0
    }
}

fn at(found: &[u8], place: usize) -> u8
    ensures { result ≡ slice_index_or found.now place 0 }
{
    match found.get(place) {
        None => 0,
        Some(worker) => *worker,
    }
}
