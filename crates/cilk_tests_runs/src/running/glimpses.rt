//! Steps whose expressions are evaluated without the lock.

use super::program;
use crate::equal::equal;
use cilk_run::{Act, Choice, Event, Glimpse, Locked, Refusal, propose};
use cilk_spawn::{Fate, Path};
use cilk_view::What;
use std::alloc::Global;
use std::process::Abort;
use std::test::*;

const COUNTING: &str = "int g; cilk void inc(void) { int t; t = g; g = t + 1; }
cilk int main(void) { spawn inc(); spawn inc(); sync; return g; }";

const LOOKING: &str =
    "int done; cilk int look(int v) { printf(\"%d\\n\", v); done = done + 1; return v; }
cilk int main(void) { int best = 0; inlet void take(int v) { best = v; abort; }
take(spawn look(1)); take(spawn look(2)); sync; return best; }";

// A worker, and 0 for its step or the worker that it steals from.
fn make(rt: &impl Abort, locked: &mut Locked, choices: &[(u8, u8)]) {
    for &(worker, victim) in choices {
        let act = if victim == 0 {
            Act::Step
        } else {
            Act::Steal(victim)
        };
        let made = locked.make(Choice { worker, act });
        assert!(rt; made.is_ok());
    }
}

// What the activations of the first child of `main` hold.
fn shows_first(rt: &impl Abort, alloc: Global, locked: &Locked, wanted: &str) {
    let what = What::Frame(Path::new(vec![in alloc; 1].expect(rt, "memory")));
    let text = locked.machine().text(&what).expect(rt, wanted);
    equal(rt, text.as_str(), wanted);
}

fn glimpse(rt: &impl Abort, locked: &Locked, worker: u8) -> Glimpse {
    let seen = locked.glimpse(worker).ok().expect(rt, "a step");
    seen.expect(rt, "an expression")
}

#[test]
fn a_value_that_changed_is_stale(rt: HostRuntime) {
    let program = program(&rt, rt.alloc(), COUNTING);
    let locked = Locked::new(rt.alloc(), program, 2);
    let mut locked = locked.ok().expect(&rt, "a machine");
    make(&rt, &mut locked, &[(1, 0), (2, 1), (2, 0)]);
    // A glimpse is what `peek` sees: `g`, which is 0.
    sees(&rt, &locked, 1, ([1].as_slice(), 1), (0, 0));
    is_stale_behind(&rt, &mut locked, 1, &[(2, 0), (2, 0), (2, 0)], 6);
    is_seen_again(&rt, &mut locked);
    shows_first(&rt, rt.alloc(), &locked, "inc line 5\n    t = 1\n");
    make(&rt, &mut locked, &[(1, 0)]);
    has(&rt, &locked, "g", 2);
}

// What the worker sees is stale behind these choices, and so many are made then.
fn is_stale_behind(
    rt: &impl Abort,
    locked: &mut Locked,
    worker: u8,
    choices: &[(u8, u8)],
    count: usize,
) {
    let seen = glimpse(rt, locked, worker);
    make(rt, locked, choices);
    let refusal = locked.commit(propose(seen)).err();
    equal(rt, refusal, Some(Refusal::Stale));
    equal(rt, locked.history().len(), count);
}

fn has(rt: &impl Abort, locked: &Locked, name: &str, value: i32) {
    equal(rt, locked.machine().global(name, 0), Some(value));
}

// Worker 1 looks again, and its step is made.
fn is_seen_again(rt: &impl Abort, locked: &mut Locked) {
    let seen = glimpse(rt, locked, 1);
    let acted = locked.commit(propose(seen)).ok().expect(rt, "a choice");
    has_acted(rt, &acted);
}

// Action 1 of the first child.
fn has_acted(rt: &impl Abort, event: &Event) {
    let is_it = match event {
        Event::Acted { path, n } => path.as_slice() == [1].as_slice() && *n == 1,
        _ => false,
    };
    assert!(rt; is_it);
}

// The worker would evaluate this action of this instance, whose one variable holds the one value, and come to the other.
fn sees(
    rt: &impl Abort,
    locked: &Locked,
    worker: u8,
    (path, n): (&[u32], u32),
    (held, value): (i32, i32),
) {
    let peek = locked.machine().peek(worker).ok().expect(rt, "a step");
    let peek = peek.expect(rt, "an expression");
    let seen = (peek.n, peek.value().ok(), peek.values.len());
    is_seen(
        rt,
        (peek.path.as_slice(), seen),
        (path, (n, Some(value), 1)),
    );
    for known in &peek.values {
        holds(rt, known.value, held);
    }
}

// A path, and an action there, its value, and how many variables it reads.
type Seen<'a> = (&'a [u32], (u32, Option<i32>, usize));

fn is_seen(rt: &impl Abort, (path, rest): Seen<'_>, wanted: Seen<'_>) {
    equal(rt, path, wanted.0);
    equal(rt, rest, wanted.1);
}

fn holds(rt: &impl Abort, value: i32, wanted: i32) {
    equal(rt, value, wanted);
}

#[test]
fn an_instance_that_was_aborted_is_stale(rt: HostRuntime) {
    let program = program(&rt, rt.alloc(), LOOKING);
    let locked = Locked::new(rt.alloc(), program, 2);
    let mut locked = locked.ok().expect(&rt, "a machine");
    let first = [(1, 0), (1, 0), (2, 1), (2, 0), (2, 0), (1, 0)];
    make(&rt, &mut locked, &first);
    make(&rt, &mut locked, &[(1, 0), (1, 0), (1, 2), (1, 0), (1, 0)]);
    has(&rt, &locked, "done", 1);
    // `done + 1`, where `done` is 1.
    sees(&rt, &locked, 2, ([2].as_slice(), 2), (1, 2));
    is_stale_behind(&rt, &mut locked, 2, &[(1, 0)], 12);
    ends(&rt, &mut locked);
}

// The next step of worker 2 ends its instance.
fn ends(rt: &impl Abort, locked: &mut Locked) {
    let step = Choice {
        worker: 2,
        act: Act::Step,
    };
    let ended = matches!(locked.make(step), Ok(Event::Ended { .. }));
    assert!(rt; ended);
    for (path, fate) in [
        ([].as_slice(), Some(Fate::Live)),
        ([1].as_slice(), Some(Fate::Delivered(10))),
        ([2].as_slice(), Some(Fate::Aborted(13))),
        ([3].as_slice(), None),
        ([1, 1].as_slice(), None),
    ] {
        equal(rt, locked.machine().fate(path), fate);
    }
}
