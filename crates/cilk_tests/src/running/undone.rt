//! A machine that keeps a record of each choice goes back, choice by choice, to what it was.

use super::{is_word, program};
use crate::equal::equal;
use cilk_machine::{Act, Choice, Machine};
use cilk_view::What;
use std::alloc::Global;
use std::process::Abort;

// Children are spawned, and their values go through an inlet, which aborts the other; a C function is called, a lock is held, and something is printed.
const ALL: &str = "Cilk_lockvar l; int done; int same(int n) { return n; }
cilk int f(int n) { int r; r = same(n); Cilk_lock(l); printf(\"%d\\n\", r); done = done + 1; Cilk_unlock(l); return r; }
cilk int main(void) { int got; inlet void found(int v) { got = v; abort; }
Cilk_lock_init(l); found(spawn f(1)); found(spawn f(2)); sync; return got; }";

// What is seen of a machine.
fn seen(rt: &impl Abort, alloc: Global, machine: &Machine) -> String {
    let choices = machine.choices();
    let outcome = machine.outcome();
    let mut text = format!(in alloc; "{choices} {outcome:?}\n").expect(rt, "memory");
    for what in [
        What::Where,
        What::Tree,
        What::Globals,
        What::Deques,
        What::Output,
    ] {
        add_view(rt, machine, &what, &mut text);
    }
    text
}

fn add_view(rt: &impl Abort, machine: &Machine, what: &What, text: &mut String) {
    let view = machine.text(what).expect(rt, "a view");
    write!(text, "{view}").expect(rt, "memory");
}

// Makes the first possible one of these choices, from one of them on. False where none is possible.
fn makes(machine: &mut Machine, from: u8) -> bool {
    let choices = [
        (1, Act::Step),
        (2, Act::Step),
        (1, Act::Pop),
        (2, Act::Pop),
        (1, Act::Steal(2)),
        (2, Act::Steal(1)),
    ];
    for k in 0..6 {
        let (worker, act) = choices[(usize::from(from) + k) % 6];
        if machine.choices() < 1000 && machine.make(Choice { worker, act }).is_ok() {
            return true;
        }
    }
    false
}

// Makes up to 100 choices, and tells what was seen before each.
fn forth(rt: &impl Abort, alloc: Global, machine: &mut Machine, turn: u8) -> Vec<String> {
    let mut before = Vec::new(alloc);
    for k in 0..100_u8 {
        let now = seen(rt, alloc, machine);
        let from = if turn == 0 { 0 } else { (k % 6 + turn % 6) % 6 };
        if makes(machine, from) {
            before.push(now).expect(rt, "memory");
        }
    }
    before
}

fn undoing(rt: &impl Abort, alloc: Global) -> Machine {
    Machine::with_undo(alloc, program(rt, alloc, ALL), 2).expect(rt, "a machine")
}

// Whether there was a choice to take back is as it is wanted.
fn undoes(rt: &impl Abort, machine: &mut Machine, wanted: bool) {
    let undone = machine.undo().expect(rt, "memory");
    equal(rt, undone, wanted);
}

#[test]
fn there_and_back(rt: HostRuntime) {
    for turn in 0..6_u8 {
        let mut machine = undoing(&rt, rt.alloc());
        let before = forth(&rt, rt.alloc(), &mut machine, turn);
        goes_back(&rt, rt.alloc(), &mut machine, &before);
    }
}

// Each choice is taken back, and what was seen before it is seen again.
fn goes_back(rt: &impl Abort, alloc: Global, machine: &mut Machine, before: &[String]) {
    assert!(rt; before.len() > 10);
    for wanted in before.iter().rev() {
        undoes(rt, machine, true);
        let now = seen(rt, alloc, machine);
        is_word(rt, now.as_str(), wanted.as_str());
    }
    undoes(rt, machine, false);
}

#[test]
fn what_is_forgotten_stays(rt: HostRuntime) {
    let mut machine = undoing(&rt, rt.alloc());
    forgets(&rt, &mut machine);
}

// The first of two choices is forgotten.
fn forgets(rt: &impl Abort, machine: &mut Machine) {
    assert!(rt; makes(machine, 0));
    machine.forget();
    assert!(rt; makes(machine, 0));
    undoes(rt, machine, true);
    undoes(rt, machine, false);
    equal(rt, machine.choices(), 1);
}
