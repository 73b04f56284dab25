//! Runs by several workers, each a thread, with gates that hold some of them back.

use super::program;
use crate::equal::equal;
use cilk_run::{Act, Choice, End, Event, Gate, Locked, Open, Refusal, Run, RunFault, run};
use std::process::Abort;
use std::sync::atomic::{AtomicU64, Ordering};
use std::test::*;
use std::thread;

// A held worker looks so often for the calls that it waits for.
const LOOKS: u64 = 100_000_000;

const SYNCING: &str = "cilk void f(void) { ; } cilk int main(void) { spawn f(); sync; return 0; }";

const STEALING: &str =
    "cilk void g(void) { } cilk void f(void) { spawn g(); } cilk int main(void) { spawn f(); spawn f(); return 0; }";

const LOCKING: &str = "Cilk_lockvar l; int g;
cilk void add(void) { Cilk_lock(l); g++; Cilk_unlock(l); }
cilk int main(void) { Cilk_lock_init(l); spawn add(); spawn add(); sync; return g; }
";

const LOOPING: &str = "cilk int main(void) { for (;;) ; }";

// The bit of a worker's first turns.
fn turn(worker: u8, turn: u64) -> u64 {
    if worker < 4 && turn < 16 {
        1u64 << (u64::from(worker) * 16 + turn)
    } else {
        0
    }
}

// Before a turn a worker waits until others have come to theirs.
#[derive(Clone, Copy)]
struct Hold {
    before: u64,
    until: u64,
}

// A gate that holds, and counts what should not be.
#[derive(Drop)]
struct Holding<'a> {
    holds: &'a [Hold],
    // Nobody may come to the second turn before the first was let go.
    order: (u64, u64),
    came: AtomicU64,
    left: AtomicU64,
    held: AtomicU64,
    failures: AtomicU64,
    // After so many looks a worker goes on, which is a failure.
    looks: u64,
}

impl<'a> Holding<'a> {
    fn new(holds: &'a [Hold], order: (u64, u64)) -> Holding<'a> {
        Holding {
            holds,
            order,
            came: AtomicU64::new(0),
            left: AtomicU64::new(0),
            held: AtomicU64::new(0),
            failures: AtomicU64::new(0),
            looks: LOOKS,
        }
    }

    fn wait(&self, until: u64) {
        for _ in 0..self.looks {
            if self.came.load(Ordering::SeqCst) & until == until {
                return;
            }
            thread::yield_now();
        }
        self.failures.fetch_add(1, Ordering::SeqCst);
    }

    // Asserts that these turns were held, and that nothing went wrong.
    fn held(&self, rt: &impl Abort, turns: u64) {
        equal(rt, self.failures.load(Ordering::SeqCst), 0);
        equal(rt, self.held.load(Ordering::SeqCst), turns);
    }
}

impl Gate for Holding<'_> {
    fn before(&self, worker: u8, number: u64) {
        let now = turn(worker, number);
        let (first, second) = self.order;
        if now == second && self.left.load(Ordering::SeqCst) & first != first {
            self.failures.fetch_add(1, Ordering::SeqCst);
        }
        self.came.fetch_or(now, Ordering::SeqCst);
        for hold in self.holds {
            if hold.before == now {
                self.held.fetch_or(now, Ordering::SeqCst);
                self.wait(hold.until);
            }
        }
        self.left.fetch_or(now, Ordering::SeqCst);
    }
}

const fn step(worker: u8) -> Choice {
    Choice {
        worker,
        act: Act::Step,
    }
}

const fn pop(worker: u8) -> Choice {
    Choice {
        worker,
        act: Act::Pop,
    }
}

const fn steal(worker: u8, victim: u8) -> Choice {
    Choice {
        worker,
        act: Act::Steal(victim),
    }
}

// Only threads of their own can pass the gates in this order.
#[test]
fn two_workers_take_turns(rt: HostRuntime) {
    for _ in 0..100 {
        let holds = [
            Hold {
                before: turn(1, 2),
                until: turn(2, 3),
            },
            Hold {
                before: turn(2, 2),
                until: turn(1, 2),
            },
        ];
        let gate = Holding::new(&holds, (turn(2, 2), turn(2, 3)));
        let program = program(&rt, rt.alloc(), SYNCING);
        let run = run(&rt, rt.alloc(), program, 2, 1000, &gate).expect(&rt, "a run");
        gate.held(&rt, turn(1, 2) | turn(2, 2));
        let wanted = [
            step(1),
            steal(2, 1),
            step(2),
            step(1),
            step(1),
            step(1),
            step(1),
        ];
        has_made(&rt, &run, &wanted, &[5, 2]);
    }
}

// These are the choices, and each worker made so many.
fn has_made(rt: &impl Abort, run: &Run, choices: &[Choice], turns: &[u64]) {
    equal(rt, run.log.choices.as_slice(), choices);
    equal(rt, run.turns.as_slice(), turns);
}

// One thread waits for turns to which only another could come.
#[test]
fn one_thread_fails_at_its_first_hold(rt: HostRuntime) {
    let holds = [Hold {
        before: turn(1, 2),
        until: turn(2, 3),
    }];
    let mut gate = Holding::new(&holds, (turn(2, 2), turn(2, 3)));
    gate.looks = 1000;
    gate.before(1, 1);
    equal(&rt, gate.failures.load(Ordering::SeqCst), 0);
    gate.before(1, 2);
    equal(&rt, gate.failures.load(Ordering::SeqCst), 1);
}

#[test]
fn a_worker_that_is_held_makes_no_choice(rt: HostRuntime) {
    for _ in 0..100 {
        let holds = [Hold {
            before: turn(2, 1),
            until: turn(1, 7),
        }];
        let gate = Holding::new(&holds, (0, 0));
        let program = program(&rt, rt.alloc(), SYNCING);
        let run = run(&rt, rt.alloc(), program, 2, 1000, &gate).expect(&rt, "a run");
        gate.held(&rt, turn(2, 1));
        let wanted = [step(1), step(1), step(1), pop(1), step(1), step(1)];
        has_made(&rt, &run, &wanted, &[6, 0]);
    }
}

#[test]
fn the_next_worker_in_the_circle_is_robbed_first(rt: HostRuntime) {
    for _ in 0..100 {
        let holds = [
            Hold {
                before: turn(3, 1),
                until: turn(1, 3) | turn(2, 3),
            },
            Hold {
                before: turn(1, 3),
                until: turn(3, 2),
            },
            Hold {
                before: turn(2, 3),
                until: turn(3, 2),
            },
        ];
        let gate = Holding::new(&holds, (0, 0));
        let program = program(&rt, rt.alloc(), STEALING);
        let run = run(&rt, rt.alloc(), program, 3, 1000, &gate).expect(&rt, "a run");
        gate.held(&rt, turn(3, 1) | turn(1, 3) | turn(2, 3));
        robs_first(&rt, &run);
    }
}

fn robs_first(rt: &impl Abort, run: &Run) {
    let first = run.log.choices.as_slice().iter().find(|it| it.worker == 3);
    equal(rt, first.copied(), Some(steal(3, 1)));
}

#[test]
fn a_step_that_waits_is_no_entry(rt: HostRuntime) {
    let program = program(&rt, rt.alloc(), LOCKING);
    let locked = Locked::new(rt.alloc(), program, 2);
    let mut locked = locked.ok().expect(&rt, "a machine");
    let before = [step(1), step(1), steal(2, 1), step(2), step(1)];
    make(&rt, &mut locked, &before);
    waits(&rt, &mut locked);
    make(&rt, &mut locked, &[step(1), step(1)]);
    goes_on(&rt, &mut locked);
}

fn make(rt: &impl Abort, locked: &mut Locked, choices: &[Choice]) {
    for &choice in choices {
        let made = locked.make(choice).is_ok();
        assert!(rt; made);
    }
}

fn waits(rt: &impl Abort, locked: &mut Locked) {
    let refused = locked.make(step(2)).err();
    equal(rt, refused, Some(Refusal::Waiting));
    equal(rt, locked.history().len(), 5);
}

fn goes_on(rt: &impl Abort, locked: &mut Locked) {
    let acted = matches!(locked.make(step(2)), Ok(Event::Acted { n: 1, .. }));
    assert!(rt; acted);
    equal(rt, locked.history().len(), 8);
    equal(rt, locked.machine().choices(), 8);
}

#[test]
fn a_run_ends_at_its_limit(rt: HostRuntime) {
    for workers in [1, 2, 5, 64] {
        let program = program(&rt, rt.alloc(), LOOPING);
        let run = run(&rt, rt.alloc(), program, workers, 1000, &Open).expect(&rt, "a run");
        has_come_to_its_limit(&rt, &run);
    }
}

fn has_come_to_its_limit(rt: &impl Abort, run: &Run) {
    assert!(rt; matches!(run.end, End::Limit));
    equal(rt, run.log.choices.len(), 1000);
    equal(rt, run.log.choices.get(999), Some(step(1)));
}

#[test]
fn there_are_1_to_64_workers(rt: HostRuntime) {
    for workers in [0, 65] {
        let program = program(&rt, rt.alloc(), LOOPING);
        let fault = run(&rt, rt.alloc(), program, workers, 9, &Open).err();
        equal(&rt, fault, Some(RunFault::Workers));
    }
}
