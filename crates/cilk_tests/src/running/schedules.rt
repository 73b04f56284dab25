//! Schedules that are known by hand: what comes of each choice, and what is refused, which changes nothing.

use super::{is_text, program};
use crate::equal::equal;
use cilk_frame::Id;
use cilk_machine::Act::{Pop, Steal, Step};
use cilk_machine::Refusal::{Busy, DequeEmpty, HandEmpty, NoWorker, Over, Waiting};
use cilk_machine::{Act, Choice, Did, Event, Machine, MachineFault, Refusal, ending};
use std::alloc::Global;
use std::process::Abort;

// What a choice did, to which instance, and by which action; an end and a move have none.
type Told<'a> = (&'a str, &'a [u32], u32);

// A worker, what it does, and what comes of it.
type Row = (u8, Act, Result<Told<'static>, Refusal>);

const SAMPLE: &str = "cilk int main(){int a=2,b;b=a*(3+4)-5;return b;}";

const SEVEN: &str = "cilk int main(void) { return 7; }";

const OVERFLOWING: &str = "cilk int main(void) { return 2147483647 + 1; }";

const COUNTING: &str = "int g; cilk void inc(void) { int t; t = g; g = t + 1; }
cilk int main(void) { spawn inc(); spawn inc(); sync; return g; }";

const DOUBLING: &str = "cilk int f(void) { return 5; }
cilk int main(void) { int x = 1; x += spawn f(); x = x * 2; x = x * 2; sync; return x; }";

const LOOKING: &str = "int done; cilk int look(int v) { done = done + 1; return v; }
cilk int main(void) { int best = 0; inlet void take(int v) { best = v; abort; }
take(spawn look(1)); take(spawn look(2)); sync; return best; }";

const ADDING: &str =
    "Cilk_lockvar l; int g; cilk void add(void) { Cilk_lock(l); g++; Cilk_unlock(l); }
cilk int main(void) { Cilk_lock_init(l); spawn add(); spawn add(); sync; return g; }";

// Each lock that one of the two waits for is the other's.
const CROSSING: &str = "Cilk_lockvar a, b;
cilk void p(void) { Cilk_lock(a); Cilk_lock(b); Cilk_unlock(b); Cilk_unlock(a); }
cilk void q(void) { Cilk_lock(b); Cilk_lock(a); Cilk_unlock(a); Cilk_unlock(b); }
cilk int main(void) { Cilk_lock_init(a); Cilk_lock_init(b); spawn p(); spawn q(); sync; return 0; }";

const REFUSED_WITHOUT_CHILDREN: &[Row] = &[
    (2, Steal(1), Err(DequeEmpty)),
    (2, Pop, Err(DequeEmpty)),
    (2, Steal(2), Err(NoWorker)),
    (2, Steal(0), Err(NoWorker)),
    (2, Steal(65), Err(NoWorker)),
    (1, Steal(3), Err(NoWorker)),
    (65, Step, Err(NoWorker)),
    (0, Step, Err(NoWorker)),
    (2, Step, Err(HandEmpty)),
    (1, Pop, Err(Busy)),
    (1, Steal(2), Err(Busy)),
    (1, Step, Ok(("returned", &[], 1))),
    (65, Step, Err(Over)),
    (1, Step, Err(Over)),
    (2, Pop, Err(Over)),
    (2, Steal(2), Err(Over)),
];

const TRAPPED: &[Row] = &[(1, Step, Ok(("trapped", &[], 1))), (1, Step, Err(Over))];

// A thief whose own deque is not empty.
const THIEF: &[Row] = &[
    (1, Step, Ok(("spawned", &[1], 4))),
    (2, Steal(1), Ok(("moved", &[], 0))),
    (2, Step, Ok(("spawned", &[2], 5))),
    (2, Step, Ok(("acted", &[2], 1))),
    (2, Step, Ok(("acted", &[2], 2))),
    (2, Step, Ok(("returned", &[2], 3))),
    (2, Steal(1), Err(Busy)),
    (2, Step, Err(HandEmpty)),
    (2, Pop, Ok(("moved", &[], 0))),
    (2, Steal(1), Err(Busy)),
];

// The first value that is found aborts the other child.
const ABORTED: &[Row] = &[
    (1, Step, Ok(("acted", &[], 4))),
    (1, Step, Ok(("spawned", &[1], 8))),
    (2, Steal(1), Ok(("moved", &[], 0))),
    (2, Step, Ok(("spawned", &[2], 9))),
    (1, Step, Ok(("acted", &[1], 1))),
    (1, Step, Ok(("returned", &[1], 2))),
    (1, Steal(2), Ok(("moved", &[], 0))),
    (1, Step, Ok(("delivered", &[1], 8))),
    (1, Step, Ok(("acted", &[], 5))),
    (1, Step, Ok(("acted", &[], 6))),
    (2, Step, Ok(("ended", &[2], 0))),
    (1, Step, Ok(("acted", &[], 7))),
    (1, Step, Ok(("acted", &[], 10))),
    (1, Step, Ok(("returned", &[], 11))),
];

const WAITED: &[Row] = &[
    (1, Step, Ok(("acted", &[], 5))),
    (1, Step, Ok(("spawned", &[1], 6))),
    (2, Steal(1), Ok(("moved", &[], 0))),
    (2, Step, Ok(("spawned", &[2], 7))),
    (1, Step, Ok(("acted", &[1], 1))),
    (2, Step, Err(Waiting)),
    (1, Step, Ok(("acted", &[1], 2))),
    (1, Step, Ok(("acted", &[1], 3))),
    (2, Step, Ok(("acted", &[2], 1))),
    (1, Step, Ok(("returned", &[1], 4))),
    (2, Step, Ok(("acted", &[2], 2))),
    (2, Step, Ok(("acted", &[2], 3))),
    (2, Step, Ok(("returned", &[2], 4))),
    (2, Pop, Ok(("moved", &[], 0))),
    (2, Step, Ok(("acted", &[], 8))),
    (2, Step, Ok(("returned", &[], 9))),
];

const CROSSED: &[Row] = &[
    (1, Step, Ok(("acted", &[], 11))),
    (1, Step, Ok(("acted", &[], 12))),
    (1, Step, Ok(("spawned", &[1], 13))),
    (2, Steal(1), Ok(("moved", &[], 0))),
    (2, Step, Ok(("spawned", &[2], 14))),
    (1, Step, Ok(("acted", &[1], 1))),
    (2, Step, Ok(("acted", &[2], 6))),
    (1, Step, Err(Waiting)),
    (2, Step, Err(Waiting)),
    (1, Pop, Err(Busy)),
    (2, Pop, Err(Busy)),
    (1, Steal(2), Err(Busy)),
    (2, Steal(1), Err(Busy)),
];

const ALONE: &[Row] = &[
    (1, Step, Ok(("spawned", &[1], 4))),
    (1, Step, Ok(("acted", &[1], 1))),
    (1, Step, Ok(("acted", &[1], 2))),
    (1, Step, Ok(("returned", &[1], 3))),
    (1, Pop, Ok(("moved", &[], 0))),
    (1, Step, Ok(("spawned", &[2], 5))),
    (1, Step, Ok(("acted", &[2], 1))),
    (1, Step, Ok(("acted", &[2], 2))),
    (1, Step, Ok(("returned", &[2], 3))),
    (1, Pop, Ok(("moved", &[], 0))),
    (1, Step, Ok(("acted", &[], 6))),
    (1, Step, Ok(("returned", &[], 7))),
];

// What is refused moves no frame. Each is where it was: the next step of worker 1 is the root's.
const REFUSED_AT_THE_OPENING: &[Row] = &[
    (2, Steal(1), Err(DequeEmpty)),
    (2, Pop, Err(DequeEmpty)),
    (2, Steal(2), Err(NoWorker)),
    (2, Steal(9), Err(NoWorker)),
    (2, Steal(65), Err(NoWorker)),
    (9, Step, Err(NoWorker)),
    (65, Step, Err(NoWorker)),
    (2, Step, Err(HandEmpty)),
    (1, Pop, Err(Busy)),
    (1, Steal(2), Err(Busy)),
];

const OPENING: &[Row] = &[
    (1, Step, Ok(("spawned", &[1], 4))),
    (2, Steal(1), Ok(("moved", &[], 0))),
    (2, Step, Ok(("spawned", &[2], 5))),
    (1, Step, Ok(("acted", &[1], 1))),
    (2, Step, Ok(("acted", &[2], 1))),
    (1, Step, Ok(("acted", &[1], 2))),
];

// The thief has the root in its deque, and each worker a child in its hand.
const REFUSED_TO_THE_THIEF: &[Row] = &[
    (2, Steal(1), Err(Busy)),
    (2, Pop, Err(Busy)),
    (1, Steal(1), Err(NoWorker)),
    (65, Step, Err(NoWorker)),
];

const CLOSING: &[Row] = &[
    (2, Step, Ok(("acted", &[2], 2))),
    (1, Step, Ok(("returned", &[1], 3))),
    (1, Step, Err(HandEmpty)),
    (1, Pop, Err(DequeEmpty)),
    (2, Step, Ok(("returned", &[2], 3))),
    (2, Pop, Ok(("moved", &[], 0))),
    (1, Steal(2), Err(DequeEmpty)),
    (2, Step, Ok(("acted", &[], 6))),
    (2, Step, Ok(("returned", &[], 7))),
];

const OVER: &[Row] = &[(9, Step, Err(Over)), (2, Steal(1), Err(Over))];

// Each program, its workers, its choices, and the closing text behind them.
const ROWS: &[(&str, u8, &[Row], &str)] = &[
    (SEVEN, 2, REFUSED_WITHOUT_CHILDREN, "main returned 7\n"),
    (
        OVERFLOWING,
        1,
        TRAPPED,
        "trapped Overflow in / at 1, line 2\n",
    ),
    (COUNTING, 2, THIEF, "limit after 7 choices\n"),
    (LOOKING, 2, ABORTED, "main returned 1\n"),
    (ADDING, 2, WAITED, "main returned 2\n"),
    (CROSSING, 2, CROSSED, "stuck after 7 choices\n"),
    (CROSSING, 3, CROSSED, "limit after 7 choices\n"),
];

fn machine(rt: &impl Abort, alloc: Global, text: &str, workers: u8) -> Machine {
    Machine::new(alloc, program(rt, alloc, text), workers).expect(rt, "a machine")
}

// Makes the choices, and asserts what comes of each. One that is refused is not counted.
fn play(rt: &impl Abort, machine: &mut Machine, rows: &[Row]) {
    for &(worker, act, wanted) in rows {
        let before = machine.choices();
        assert!(rt; before < 1000);
        let made = machine.make(Choice { worker, act });
        equal(rt, told(&made), wanted);
        let behind = if wanted.is_ok() { before + 1 } else { before };
        equal(rt, machine.choices(), behind);
    }
}

fn told(made: &Result<Event, Refusal>) -> Result<Told<'_>, Refusal> {
    match made {
        Ok(Event::Acted { path, n }) => Ok(("acted", path.as_slice(), *n)),
        Ok(Event::Spawned { child, n }) => Ok(("spawned", child.as_slice(), *n)),
        Ok(Event::Delivered { child, n }) => Ok(("delivered", child.as_slice(), *n)),
        Ok(Event::Returned { path, n }) => Ok(("returned", path.as_slice(), *n)),
        Ok(Event::Trapped { path, n, .. }) => Ok(("trapped", path.as_slice(), *n)),
        Ok(Event::Ended { path }) => Ok(("ended", path.as_slice(), 0)),
        Ok(Event::Moved) => Ok(("moved", &[], 0)),
        Err(refusal) => Err(*refusal),
    }
}

// Asserts the closing text.
fn closes(rt: &impl Abort, alloc: Global, machine: &Machine, wanted: &str) {
    let end = machine.end_now().expect(rt, "memory");
    let text = ending(alloc, machine.output(), &end, machine.choices()).expect(rt, "memory");
    is_text(rt, text.as_slice(), wanted);
}

#[test]
fn schedules_come_out(rt: HostRuntime) {
    for &(text, workers, rows, closing) in ROWS {
        let mut machine = machine(&rt, rt.alloc(), text, workers);
        play(&rt, &mut machine, rows);
        closes(&rt, rt.alloc(), &machine, closing);
    }
}

// Choices one after the other, each with the value of g behind them, and the value of `main`.
#[test]
fn counts_alone_and_at_once(rt: HostRuntime) {
    let alone = [([].as_slice(), 0), (ALONE, 2)];
    counts(&rt, rt.alloc(), &alone, "main returned 2\n");
    let at_once = [
        (REFUSED_AT_THE_OPENING, 0),
        (OPENING, 1),
        (REFUSED_TO_THE_THIEF, 1),
        (CLOSING, 1),
        (OVER, 1),
    ];
    counts(&rt, rt.alloc(), &at_once, "main returned 1\n");
}

fn counts(rt: &impl Abort, alloc: Global, parts: &[(&[Row], i32)], closing: &str) {
    let mut machine = machine(rt, alloc, COUNTING, 2);
    for &(rows, g) in parts {
        play(rt, &mut machine, rows);
        equal(rt, machine.global("g", 0), Some(g));
    }
    equal(rt, machine.choices(), 12);
    equal(rt, machine.global("g", 1), None);
    equal(rt, machine.global("inc", 0), None);
    closes(rt, alloc, &machine, closing);
}

#[test]
fn variables_of_the_top_level_have_cells(rt: HostRuntime) {
    let text = "int a = -5, b[3], c; cilk int main(void) { b[2] = 7; c = 8; return 0; }";
    let mut machine = machine(&rt, rt.alloc(), text, 1);
    let rows = [
        (1, Step, Ok(("acted", [].as_slice(), 1))),
        (1, Step, Ok(("acted", [].as_slice(), 2))),
    ];
    play(&rt, &mut machine, &rows);
    for (name, index, value) in [
        ("a", 0, Some(-5)),
        ("a", 1, None),
        ("b", 0, Some(0)),
        ("b", 2, Some(7)),
        ("b", 3, None),
        ("c", 0, Some(8)),
        ("main", 0, None),
        ("d", 0, None),
    ] {
        equal(&rt, machine.global(name, index), value);
    }
}

#[test]
fn instances_go_by_their_numbers(rt: HostRuntime) {
    let mut machine = machine(&rt, rt.alloc(), DOUBLING, 1);
    for (act, wanted) in [
        (Step, Ok(Did::Acted(Id::new(0), 3))),
        (Step, Ok(Did::Spawned(Id::new(1), 4))),
        (Pop, Err(Busy)),
        (Step, Ok(Did::Returned(Id::new(1), 1))),
        (Step, Err(HandEmpty)),
        (Steal(1), Err(NoWorker)),
        (Pop, Ok(Did::Moved)),
        (Step, Ok(Did::Delivered(Id::new(1), 4))),
        (Step, Ok(Did::Acted(Id::new(0), 5))),
    ] {
        assert!(rt; machine.choices() < 9);
        equal(&rt, machine.advance(Choice { worker: 1, act }), wanted);
    }
}

#[test]
fn there_are_one_to_sixty_four_workers(rt: HostRuntime) {
    for workers in [0, 65, 255] {
        let loaded = program(&rt, rt.alloc(), SAMPLE);
        let made = Machine::new(rt.alloc(), loaded, workers);
        assert!(rt; matches!(made, Err(MachineFault::Workers)));
    }
}
