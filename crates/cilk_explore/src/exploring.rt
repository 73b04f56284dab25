//! The search itself: a shorter log before a longer one, until all that was found was looked at, or the limit is met.

ghost use Rattle.std.specs.Prelude.{◌≡◌, ◌<◌, ◌≤◌, ◌⊎◌, ◌↔◌, ◌^◌, ℕ, true, false, length, Ok, Err, IfOk, OnOk};
ghost use Rattle.cilk_explore.specs.Looking.{StandsAtLog};
ghost use Rattle.cilk_explore.specs.Exploring.{IsBetween, HasLinks, IsThrough, IsExploration, GoesOn};

use crate::exploration::Exploration;
use crate::explorer::Explorer;
use crate::links::Links;
use crate::looking::look_at;
use crate::probe::Probe;
use crate::store::Store;
use crate::unending::endless_log;
use crate::walker::Walker;
use cilk_machine::{Choice, Loaded, MachineFault, Memory};
use std::alloc::Global;

/// Tells each ending that the program has with so many workers, in the order in which they are found, each with a schedule than which none is
/// shorter; and, where all was looked at, a schedule behind which it never ends, and whether all this is so of more workers too. It keeps no more than
/// `limit` standings, which is at least 1; where that is met, not all may have been looked at.
pub fn explore(
    alloc: Global,
    program: &Loaded,
    workers: u8,
    limit: u32,
) -> Result<Exploration, MachineFault>
    ensures workers { (result ≡ Err MachineFault.Workers) ↔ ((workers ≡ 0) ⊎ (64 < workers)) }
    ensures found { IfOk result (IsExploration program.now workers limit) }
{
    if workers == 0 || 64 < workers {
        return Err(MachineFault::Workers);
    }
    match explored(alloc, program, workers, limit) {
        Err(memory) => Err(MachineFault::Memory(memory)),
        Ok(exploration) => Ok(exploration),
    }
}

fn explored(alloc: Global, program: &Loaded, workers: u8, limit: u32) -> Result<Exploration, Memory>
    ensures { IfOk result (IsExploration program.now workers limit) }
{
    if limit == 0 {
        return Ok(Exploration {
            told: Vec::new(alloc),
            whole: false,
            endless: None,
            or_more: false,
            standings: 0,
        });
    }
    match begun(alloc, program, workers, limit) {
        Err(memory) => Err(memory),
        Ok(mut explorer) => match look_at_all(&mut explorer, workers) {
            Err(memory) => {
                drop(explorer);
                Err(memory)
            }
            Ok(whole) => match endless_log(&explorer, whole) {
                Err(memory) => {
                    drop(explorer);
                    Err(memory)
                }
                Ok(endless) => Ok(told_of(explorer, workers, whole, endless)),
            },
        },
    }
}

// A search that has looked at nothing yet.
fn begun(alloc: Global, program: &Loaded, workers: u8, limit: u32) -> Result<Explorer, Memory>
    requires { 1 ≤ limit }
    ensures between { IfOk result (λ e. IsBetween e 0) }
    ensures links { IfOk result (λ e. HasLinks e 0) }
    ensures program { IfOk result (λ e. e.walker.program ≡ program.now) }
    ensures workers { IfOk result (λ e. e.walker.workers ≡ workers) }
    ensures limit { IfOk result (λ e. e.limit ≡ limit) }
    ensures stands { IfOk result (λ e. StandsAtLog e.store 0 e.walker) }
{
    let walker = match Walker::new(alloc, program, workers) {
        Ok(walker) => walker,
        Err(memory) => return Err(memory),
    };
    let probe = match Walker::new(alloc, program, workers) {
        Ok(probe) => probe,
        Err(memory) => {
            drop(walker);
            return Err(memory);
        }
    };
    // Brings their clauses into the proof.
    let _log = walker.log();
    let _other = probe.log();
    let store = match Store::new(alloc, walker.tag()) {
        Ok(store) => store,
        Err(memory) => {
            drop(walker);
            drop(probe);
            return Err(memory);
        }
    };
    Ok(Explorer {
        alloc,
        walker,
        probe: Probe {
            walker: probe,
            number: 0,
        },
        store,
        links: Links::new(alloc),
        tail: Vec::new(alloc),
        told: Vec::new(alloc),
        limit: limit as usize,
        idle: true,
    })
}

// Looks at one log after another. Whether all that were found were looked at.
fn look_at_all(explorer: &mut Explorer, workers: u8) -> Result<bool, Memory>
    requires between { IsBetween explorer.old 0 }
    requires links { HasLinks explorer.old 0 }
    requires stands { StandsAtLog explorer.old.store 0 explorer.old.walker }
    requires crew { workers ≡ explorer.old.walker.workers }
    ensures looked { OnOk result ((looked : ℕ) × IsBetween explorer.new looked) }
    ensures all { result ≡ Ok true → IsThrough explorer.new }
    ensures met { result ≡ Ok false → explorer.new.limit ≤ length explorer.new.store }
    ensures goes { OnOk result (GoesOn explorer.old explorer.new) }
{
    for looked in 0..explorer.limit {
        if explorer.store.len() <= looked {
            return Ok(true);
        }
        match look_at(explorer, looked, workers) {
            Err(memory) => return Err(memory),
            Ok(false) => return Ok(false),
            Ok(true) => {}
        }
    }
    Ok(true)
}

fn told_of(
    explorer: Explorer,
    workers: u8,
    whole: bool,
    endless: Option<Vec<Choice>>,
) -> Exploration
    requires { length explorer.store < 2 ^ 32 }
    ensures told { result.told ≡ explorer.told }
    ensures whole { result.whole ≡ whole }
    ensures endless { result.endless ≡ endless }
    ensures standings { result.standings ≡ length explorer.store }
    ensures no_less { result.or_more ≡ true → whole ≡ true }
    ensures idle { result.or_more ≡ true → explorer.idle ≡ true }
    ensures fewer { result.or_more ≡ true → workers < 64 }
{
    let standings = explorer.store.len() as u32;
    let or_more = whole && explorer.idle && workers < 64;
    let Explorer {
        alloc: _,
        walker: _walker,
        probe: _probe,
        store: _store,
        links: _links,
        tail: _tail,
        told,
        limit: _,
        idle: _,
    } = explorer;
    Exploration {
        told,
        whole,
        endless,
        or_more,
        standings,
    }
}
