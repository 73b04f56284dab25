//! `run_by_seed`: the run of the schedule that a seed names.

ghost use Rattle.std.specs.Prelude.{◌≡◌, ◌≢◌, ◌<◌, ◌≤◌, ◌⊎◌, ◌↔◌, ◌∷◌, [], ℕ, true, false, length, map, Ok, Err, None, IfOk, IfErr};
ghost use Rattle.cilk_run.specs.Runs.{IsRun, Stops};
ghost use Rattle.cilk_run.specs.choices.Words.{choice_of};
ghost use Rattle.cilk_run.specs.labelled.Bodies.{label};
ghost use Rattle.cilk_run.specs.machine.Situation.{workers_of};
ghost use Rattle.cilk_run.specs.machine.Stands.{Opens, StandsAt};
ghost use Rattle.cilk_run.specs.model.Run.{Standing};
ghost use Rattle.cilk_run.specs.syntax.Tree.{Program};
ghost use Rattle.cilk_run.specs.Drawn.{drawn, turn_of};
ghost use Rattle.cilk_run.specs.Drawing.{Follows, Goes};

use crate::draws::Draws;
use crate::ended::run_of;
use crate::run_result::{Run, RunFault};
use cilk_run_locked::{Loaded, Locked, MachineFault};
use std::alloc::Global;

/// Runs a program with 1 to 64 workers, which are simulated: their choices are those that the seed names, at most `limit`, and no thread is started.
/// It is refused for another number of workers, and where memory has run out.
pub fn run_by_seed(
    alloc: Global,
    program: Loaded,
    workers: u8,
    seed: u64,
    limit: u32,
) -> Result<Run, RunFault>
    ensures ok { IfOk result (λ r. IsRun program workers limit r) }
    ensures drawn { IfOk result (λ r. map choice_of r.log.choices ≡ drawn (label program) workers seed limit) }
    ensures workers { (result ≡ Err RunFault.Workers) ↔ ((workers ≡ 0) ⊎ (64 < workers)) }
    ensures start { result ≢ Err RunFault.Start }
{
    match played_by_seed(alloc, program, workers, seed, limit) {
        Ok(locked) => run_of(alloc, locked, workers, limit),
        Err(fault) => Err(fault),
    }
}

/// The machine, with its history, behind the schedule that a seed names: `run_by_seed` tells a run of it.
pub(crate) fn played_by_seed(
    alloc: Global,
    program: Loaded,
    workers: u8,
    seed: u64,
    limit: u32,
) -> Result<Locked, RunFault>
    ensures program { IfOk result (λ l. l.machine.program ≡ program) }
    ensures crew { IfOk result (λ l. workers_of l.machine ≡ workers) }
    ensures drawn { IfOk result (λ l. map choice_of l.history ≡ drawn (label program) workers seed limit) }
    ensures stops { IfOk result (λ l. Stops limit l.machine) }
    ensures workers { (result ≡ Err RunFault.Workers) ↔ ((workers ≡ 0) ⊎ (64 < workers)) }
    ensures start { result ≢ Err RunFault.Start }
{
    match Locked::new(alloc, program, workers) {
        Err(MachineFault::Workers) => Err(RunFault::Workers),
        Err(MachineFault::Memory(_)) => Err(RunFault::Memory),
        Ok(locked) => play_from(alloc, locked, workers, seed, limit),
    }
}

// The same, of a machine before any choice.
fn play_from(
    alloc: Global,
    locked: Locked,
    workers: u8,
    seed: u64,
    limit: u32,
) -> Result<Locked, RunFault>
    requires crew { workers_of locked.machine ≡ workers }
    requires opens { Opens locked.machine }
    requires none { locked.history ≡ [] }
    ensures program { IfOk result (λ l. l.machine.program ≡ locked.machine.program) }
    ensures crew { IfOk result (λ l. workers_of l.machine ≡ workers) }
    ensures drawn { IfOk result (λ l. map choice_of l.history ≡ drawn (label locked.machine.program) workers seed limit) }
    ensures stops { IfOk result (λ l. Stops limit l.machine) }
    ensures err { IfErr result (λ e. e ≡ RunFault.Memory) }
{
    play_to_end(locked, Draws::new(alloc, workers, seed), limit)
}

// All choices of the schedule are made.
fn play_to_end(locked: Locked, draws: Draws, limit: u32) -> Result<Locked, RunFault>
    ensures program { IfOk result (λ l. l.machine.program ≡ locked.machine.program) }
    ensures crew { IfOk result (λ l. workers_of l.machine ≡ workers_of locked.machine) }
    ensures whole { IfOk result (λ l. (p : Program) (n seed : ℕ) → Follows p n seed limit 0 locked draws
        → map choice_of l.history ≡ drawn (label p) n seed limit) }
    ensures stops { IfOk result (λ l. (p : Program) (n seed : ℕ) → Follows p n seed limit 0 locked draws → Stops limit l.machine) }
    ensures err { IfErr result (λ e. e ≡ RunFault.Memory) }
{
    let mut locked = locked;
    let mut draws = draws;
    for made in 0..limit {
        match take_turn(&mut locked, &mut draws) {
            Err(fault) => return Err(fault),
            Ok(false) => return Ok(locked),
            Ok(true) => {}
        }
    }
    Ok(locked)
}

// Draws the next choice, and makes it. False where no worker may do anything.
fn take_turn(locked: &mut Locked, draws: &mut Draws) -> Result<bool, RunFault>
    ensures made { result ≡ Ok true → Goes locked.old locked.new draws.old draws.new }
    ensures over { result ≡ Ok false → (at : Standing) → StandsAt locked.old.machine at
        → turn_of (label locked.old.machine.program) draws.old.workers at draws.old.last draws.old.state ≡ None }
    ensures same { result ≡ Ok false → locked.new ≡ locked.old }
    ensures err { IfErr result (λ e. e ≡ RunFault.Memory) }
{
    match draws.next(locked.machine()) {
        Err(_) => Err(RunFault::Memory),
        Ok(None) => Ok(false),
        Ok(Some(choice)) => match locked.advance(choice) {
            // A choice that is drawn is possible, so it is memory that is wanting.
            Err(_) => Err(RunFault::Memory),
            Ok(_) => Ok(true),
        },
    }
}
