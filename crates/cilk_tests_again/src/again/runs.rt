//! A machine with its history, and runs by one and by two workers.

use super::machines::{closes, closing, seen};
use super::programs::{ABORTED, COUNTING, FIBONACCI, LOOKING};
use super::script::choice_of;
use super::tell_refused;
use super::texts::{loaded, log_of};
use crate::equal::equal;
use cilk_log_replay::{Log, ReplayFault, play_all};
use cilk_run::{
    Choice, Glimpse, Locked, Machine, MachineFault, Open, Proposal, Refusal, Run, RunFault,
    propose, run,
};
use std::alloc::Global;
use std::process::Abort;
use std::sync::Wait;
use std::thread::Threads;

// What is seen of the machine, and its history.
fn told(rt: &(impl Abort + Print), alloc: Global, locked: &Locked) -> String {
    let mut text = seen(rt, alloc, locked.machine());
    let history = locked.history();
    write!(text, "{history:?}").expect(rt, "room");
    text
}

fn is_as_before(rt: &(impl Abort + Print), alloc: Global, locked: &Locked, before: &str) {
    equal(rt, told(rt, alloc, locked).as_str(), before);
}

fn glimpse(rt: &(impl Abort + Print), locked: &Locked, worker: u8) -> Option<Glimpse> {
    again!(rt; locked.glimpse(worker), Refusal::Memory)
}

// What a worker sees of its next step, evaluated.
fn proposal(rt: &(impl Abort + Print), locked: &Locked, worker: u8) -> Proposal {
    propose(glimpse(rt, locked, worker).expect(rt, "an expression"))
}

fn makes(rt: &(impl Abort + Print), alloc: Global, locked: &mut Locked, choice: Choice) {
    let before = told(rt, alloc, locked);
    again!(
        rt;
        locked.make(choice),
        Refusal::Memory,
        is_as_before(rt, alloc, locked, before.as_str())
    );
}

fn advances(rt: &(impl Abort + Print), alloc: Global, locked: &mut Locked, choice: Choice) {
    let before = told(rt, alloc, locked);
    again!(
        rt;
        locked.advance(choice),
        Refusal::Memory,
        is_as_before(rt, alloc, locked, before.as_str())
    );
}

// The worker's step, by what it sees.
fn commits(rt: &(impl Abort + Print), alloc: Global, locked: &mut Locked, worker: u8) {
    let before = told(rt, alloc, locked);
    again!(
        rt;
        locked.commit(proposal(rt, locked, worker)),
        Refusal::Memory,
        is_as_before(rt, alloc, locked, before.as_str())
    );
}

fn opened(rt: &(impl Abort + Print), alloc: Global) -> Locked {
    again!(rt; Locked::new(alloc, loaded(rt, alloc, COUNTING), 2), MachineFault::Memory(_))
}

// Makes the choices of a script one after the other, in one of two ways.
fn plays(rt: &(impl Abort + Print), alloc: Global, locked: &mut Locked, script: &str) {
    for word in script.split_whitespace() {
        let choice = choice_of(rt, word);
        if choice.worker == 1 {
            advances(rt, alloc, locked, choice);
        } else {
            makes(rt, alloc, locked, choice);
        }
        equal(rt, locked.history().last().copied(), Some(choice));
    }
}

// The two children read the variable one after the other, and so one of their sums is lost.
#[test]
fn a_history_grows(rt: HostRuntime) {
    let mut locked = opened(&rt, rt.alloc());
    plays(
        &rt,
        rt.alloc(),
        &mut locked,
        "1s 2t1 2s 1s 2s 1s 2s 1s 2s 2p 2s 2s",
    );
    equal(&rt, locked.history().len(), 12);
    closes(&rt, rt.alloc(), locked.machine(), "main returned 1\n");
}

// The first child sees the variable, and then the second counts: what was seen is stale, with memory and without.
#[test]
fn a_value_that_changed_is_stale(rt: HostRuntime) {
    let mut locked = opened(&rt, rt.alloc());
    plays(&rt, rt.alloc(), &mut locked, "1s 2t1 2s");
    let seen = proposal(&rt, &locked, 1);
    plays(&rt, rt.alloc(), &mut locked, "2s 2s 2s");
    let before = told(&rt, rt.alloc(), &locked);
    equal(&rt, locked.commit(seen).err(), Some(Refusal::Stale));
    is_as_before(&rt, rt.alloc(), &locked, before.as_str());
    equal(&rt, locked.history().len(), 6);
    commits(&rt, rt.alloc(), &mut locked, 1);
    commits(&rt, rt.alloc(), &mut locked, 1);
    plays(&rt, rt.alloc(), &mut locked, "1s 2p 2s 2s");
    closes(&rt, rt.alloc(), locked.machine(), "main returned 2\n");
}

fn played(rt: &(impl Abort + Print), alloc: Global, log: &Log) -> Machine {
    again!(rt; play_all(alloc, loaded(rt, alloc, LOOKING), log), ReplayFault::Memory)
}

#[test]
fn a_schedule_is_played(rt: HostRuntime) {
    let log = log_of(&rt, rt.alloc(), ABORTED);
    let machine = played(&rt, rt.alloc(), &log);
    closes(&rt, rt.alloc(), &machine, "2\n1\nmain returned 1\n");
}

fn ran<R: Abort + Print + Threads + Wait + Sync>(rt: &R, alloc: Global, workers: u8) -> Run {
    again!(
        rt;
        run(rt, alloc, loaded(rt, alloc, FIBONACCI), workers, 10_000, &Open),
        RunFault::Memory | RunFault::Start
    )
}

#[test]
fn workers_run(rt: HostRuntime) {
    for workers in [1, 2] {
        let run = ran(&rt, rt.alloc(), workers);
        let choices = run.log.choices.len() as u64;
        let text = closing(&rt, rt.alloc(), run.output.as_slice(), &run.end, choices);
        equal(&rt, text.as_slice(), "main returned 55\n".as_bytes());
    }
}
