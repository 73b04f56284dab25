//! `run`: starts the threads of the workers, lets them take turns, and gives the run.

ghost use Rattle.std.specs.Prelude.{◌≡◌, ◌≢◌, ◌<◌, ◌⊎◌, ◌↔◌, [], Err, IfOk, IfErr};
ghost use Rattle.cilk_run.specs.machine.Situation.{workers_of};
ghost use Rattle.cilk_run.specs.Runs.{IsRun};

use crate::ahead::Ahead;
use crate::gate::Gate;
use crate::post::{Post, TurnEnd};
use crate::run_result::{Run, RunFault};
use crate::shared::Shared;
use crate::table::{Setting, Table};
use cilk_run_locked::{Loaded, Locked, MachineFault};
use std::alloc::Global;
use std::marker::Brand;
use std::sync::{Condvar, Mutex, Wait};
use std::thread;
use std::thread::{Builder, Threads};
use std::time::Duration;

/// Runs a program with 1 to 64 workers until it ends, is stuck, or they have made `limit` choices. Each worker is a thread of its own, but for
/// an only one, which is the caller's. All threads that were started have ended when this returns. A worker passes the gate before each turn. It is
/// refused for another number of workers, where the system starts no thread for one of them, and where memory has run out.
pub fn run<R: Threads + Wait + Sync, G: Gate + Sync>(
    rt: &R,
    alloc: Global,
    program: Loaded,
    workers: u8,
    limit: u32,
    gate: &G,
) -> Result<Run, RunFault>
    ensures ok { IfOk result (λ r. IsRun program workers limit r) }
    ensures workers { (result ≡ Err RunFault.Workers) ↔ ((workers ≡ 0) ⊎ (64 < workers)) }
    ensures alone { workers ≡ 1 → result ≢ Err RunFault.Start }
{
    match Locked::new(alloc, program, workers) {
        Err(MachineFault::Workers) => Err(RunFault::Workers),
        Err(MachineFault::Memory(_)) => Err(RunFault::Memory),
        Ok(locked) => run_on(rt, alloc, locked, workers, limit, gate),
    }
}

// The same, of a machine before any choice. It names the run: `run_as` is proved for every `J`, and the proof of this call picks the one that has the
// program of `locked`, these workers and this limit (`proofs/crew/run_on/Invariants.antt`).
fn run_on<R: Threads + Wait + Sync, G: Gate + Sync>(
    rt: &R,
    alloc: Global,
    locked: Locked,
    workers: u8,
    limit: u32,
    gate: &G,
) -> Result<Run, RunFault>
    requires crew { workers_of locked.machine ≡ workers }
    requires none { locked.history ≡ [] }
    ensures ok { IfOk result (λ r. IsRun locked.machine.program workers limit r) }
    ensures err { IfErr result (λ e. e ≢ RunFault.Workers) }
    ensures alone { workers ≡ 1 → result ≢ Err RunFault.Start }
{
    run_as::<Brand, R, G>(rt, alloc, locked, workers, limit, gate)
}

// The size of a worker's stack in bytes.
const STACK: usize = 1 << 20;

// A worker that found nothing to do leaves its processor to others before it looks again, once more each time, up to so many times.
const MOST_YIELDS: u32 = 16;

// From then on it sleeps before it looks again, so many microseconds longer each time, up to so many times as long.
const NAP: u32 = 50;

const LONGEST_NAP: u32 = 40;

// The same, of the run that `J` names. Table, mutex and `Ahead` are of one `J`, so that who gets the lock finds this run's program, workers and limit.
fn run_as<J: Setting + Send + Sync, R: Threads + Wait + Sync, G: Gate + Sync>(
    rt: &R,
    alloc: Global,
    locked: Locked,
    workers: u8,
    limit: u32,
    gate: &G,
) -> Result<Run, RunFault>
    requires program { locked.machine.program ≡ J.program }
    requires crew { workers_of locked.machine ≡ J.workers }
    requires workers { workers ≡ J.workers }
    requires limit { limit ≡ J.limit }
    requires none { locked.history ≡ [] }
    ensures ok { IfOk result (λ r. IsRun J.program J.workers J.limit r) }
    ensures err { IfErr result (λ e. e ≢ RunFault.Workers) }
    ensures alone { workers ≡ 1 → result ≢ Err RunFault.Start }
{
    let table: Table<J> = Table::new(alloc, locked, workers, limit)?;
    if workers == 1 {
        return finish(rt, alloc, work_alone(rt, table, gate), workers);
    }
    let ahead: Ahead<J> = table.ahead(alloc)?;
    let shared = Shared {
        lock: Mutex::new(table),
        ahead,
    };
    let bell = Condvar::new();
    let all_started = start_all(rt, alloc, &shared, &bell, gate, workers);
    let table = shared.lock.into_inner();
    if !all_started {
        return Err(RunFault::Start);
    }
    finish(rt, alloc, table, workers)
}

/// Starts the workers' threads, and waits until all that were started have ended. False: the system did not start one of them.
fn start_all<'a, T: Post + Sync, R: Threads + Wait + Sync, G: Gate + Sync>(
    rt: &'a R,
    alloc: Global,
    post: &'a T,
    bell: &'a Condvar,
    gate: &'a G,
    workers: u8,
) -> bool {
    thread::scope(thread::scope_env(), rt, |scope| {
        for before in 0..workers {
            let worker = before + 1;
            let builder = Builder::new().stack_size(STACK);
            if builder
                .spawn_scoped(scope, move || work(rt, alloc, post, bell, gate, worker))
                .is_err()
            {
                post.stop(rt);
                bell.notify_all();
                return false;
            }
        }
        true
    })
}

/// What a worker's thread does. Who ends rings the bell for those that sleep.
fn work<T: Post, R: Wait, G: Gate>(
    rt: &R,
    alloc: Global,
    post: &T,
    bell: &Condvar,
    gate: &G,
    worker: u8,
) {
    let mut values = Vec::new(alloc);
    let mut turn = 1u64;
    let mut in_vain = 0u32;
    for _ in rt.forever() {
        gate.before(worker, turn);
        match post.turn(rt, worker, &mut values) {
            TurnEnd::Stop => {
                bell.notify_all();
                return;
            }
            TurnEnd::Idle => {
                in_vain = in_vain.saturating_add(1);
                rest(rt, bell, in_vain);
            }
            TurnEnd::Made => {
                turn = turn.wrapping_add(1);
                in_vain = 0;
            }
        }
    }
}

/// What a worker does between two turns that it takes in vain, of which it took so many.
fn rest<R: Wait>(rt: &R, bell: &Condvar, in_vain: u32) {
    if in_vain <= MOST_YIELDS {
        for _ in 0..in_vain {
            thread::yield_now();
        }
    } else {
        let naps = LONGEST_NAP.min(in_vain - MOST_YIELDS);
        let length = Duration::from_micros(u64::from(naps) * u64::from(NAP));
        bell.sleep(rt, bell.notifications(), length);
    }
}

/// What an only worker does, who needs no lock.
fn work_alone<J: Setting, R: Wait, G: Gate>(rt: &R, table: Table<J>, gate: &G) -> Table<J> {
    let mut table = table;
    let mut turn = 1u64;
    for _ in rt.forever() {
        gate.before(1, turn);
        match table.take_turn(1) {
            TurnEnd::Stop => break,
            TurnEnd::Idle => {}
            TurnEnd::Made => turn = turn.wrapping_add(1),
        }
    }
    table
}

/// Gives the run, once it is over, or tells that memory ran out. One of the two is so behind all workers' last turns, but no clause says that of threads:
/// else it would go on here, in the caller's thread, for each worker in turn.
fn finish<J: Setting, R: Wait>(
    rt: &R,
    alloc: Global,
    table: Table<J>,
    workers: u8,
) -> Result<Run, RunFault>
    ensures ok { IfOk result (λ r. IsRun J.program J.workers J.limit r) }
    ensures err { IfErr result (λ e. e ≡ RunFault.Memory) }
{
    let mut table = table;
    for _ in rt.forever() {
        if table.is_short() {
            return Err(RunFault::Memory);
        }
        if table.has_ended() {
            return table.into_run(alloc);
        }
        for before in 0..workers {
            table.take_turn(before + 1);
        }
    }
    unreachable!()
}
