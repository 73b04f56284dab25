//! Debuggers that move, and show what is there.

use super::programs::{ABORTED, LOOKING};
use super::texts::{loaded, log_of};
use super::{page, pages, tell_refused};
use crate::equal::equal;
use cilk_debug::{Act, Choice, Choices, DebugFault, Debugger, Log, ViewFault, What};
use cilk_spawn::Path;
use std::alloc::Global;
use std::process::Abort;

// A loop without end, a round of which is two steps.
const COUNTING: &str = "cilk int main(void) { int i; for (;;) i++; }";

fn view(rt: &(impl Abort + Print), debugger: &Debugger, what: &What) -> String {
    again!(rt; debugger.view(what), ViewFault::Memory(_))
}

// The frame of the root, or nothing where the root has ended.
fn root_frame(rt: &(impl Abort + Print), alloc: Global, debugger: &Debugger) -> String {
    let root = What::Frame(Path::root(alloc));
    match debugger.view(&root) {
        Ok(text) => text,
        Err(ViewFault::NoInstance) => String::new(alloc),
        Err(ViewFault::Memory(_)) => {
            tell_refused(rt, "debugger.view()");
            debugger.view(&root).ok().expect(rt, "a frame")
        }
    }
}

// What a debugger tells, but for the work that it had.
pub fn told(rt: &(impl Abort + Print), alloc: Global, debugger: &Debugger) -> String {
    let mut text = page(rt, alloc);
    let position = debugger.position();
    let length = debugger.length();
    write!(text, "{position} of {length}\n").expect(rt, "room");
    for what in [
        What::Where,
        What::Tree,
        What::Globals,
        What::Deques,
        What::Output,
        What::List,
    ] {
        let view = view(rt, debugger, &what);
        write!(text, "{view}").expect(rt, "room");
    }
    let frame = root_frame(rt, alloc, debugger);
    write!(text, "{frame}").expect(rt, "room");
    text
}

// What a debugger tells, with its work.
fn told_whole(rt: &(impl Abort + Print), alloc: Global, debugger: &Debugger) -> String {
    let mut text = told(rt, alloc, debugger);
    let work = debugger.work();
    write!(text, "{work}").expect(rt, "room");
    text
}

fn is_as_before(rt: &(impl Abort + Print), alloc: Global, debugger: &Debugger, before: &str) {
    equal(rt, told_whole(rt, alloc, debugger).as_str(), before);
}

fn steps(rt: &(impl Abort + Print), alloc: Global, debugger: &mut Debugger) {
    let before = told_whole(rt, alloc, debugger);
    again!(
        rt;
        debugger.step(),
        DebugFault::Memory,
        is_as_before(rt, alloc, debugger, before.as_str())
    );
}

fn goes_back(rt: &(impl Abort + Print), alloc: Global, debugger: &mut Debugger) {
    let before = told_whole(rt, alloc, debugger);
    again!(
        rt;
        debugger.back(),
        DebugFault::Memory,
        is_as_before(rt, alloc, debugger, before.as_str())
    );
}

fn goes(rt: &(impl Abort + Print), alloc: Global, debugger: &mut Debugger, position: u64) {
    let before = told_whole(rt, alloc, debugger);
    again!(
        rt;
        debugger.go(position),
        DebugFault::Memory,
        is_as_before(rt, alloc, debugger, before.as_str())
    );
}

fn goes_to_next(rt: &(impl Abort + Print), alloc: Global, debugger: &mut Debugger) -> bool {
    let before = told_whole(rt, alloc, debugger);
    again!(
        rt;
        debugger.forward_to_break(),
        DebugFault::Memory,
        is_as_before(rt, alloc, debugger, before.as_str())
    )
}

fn goes_to_previous(rt: &(impl Abort + Print), alloc: Global, debugger: &mut Debugger) -> bool {
    let before = told_whole(rt, alloc, debugger);
    again!(
        rt;
        debugger.back_to_break(),
        DebugFault::Memory,
        is_as_before(rt, alloc, debugger, before.as_str())
    )
}

pub fn opened(rt: &(impl Abort + Print), alloc: Global, text: &str, recorded: &str) -> Debugger {
    again!(
        rt;
        Debugger::new(alloc, loaded(rt, alloc, text), log_of(rt, alloc, recorded)),
        DebugFault::Memory
    )
}

#[test]
fn a_debugger_moves(rt: HostRuntime) {
    let mut debugger = opened(&rt, rt.alloc(), LOOKING, ABORTED);
    let mut there = pages(&rt, rt.alloc(), 20);
    for k in 1..17 {
        let now = told(&rt, rt.alloc(), &debugger);
        there.push(now).ok().expect(&rt, "room");
        steps(&rt, rt.alloc(), &mut debugger);
        equal(&rt, debugger.position(), k);
    }
    for wanted in there.iter().rev() {
        goes_back(&rt, rt.alloc(), &mut debugger);
        equal(
            &rt,
            told(&rt, rt.alloc(), &debugger).as_str(),
            wanted.as_str(),
        );
    }
}

fn shows(rt: &(impl Abort + Print), debugger: &Debugger, what: &What, wanted: &str) {
    let text = view(rt, debugger, what);
    equal(rt, text.as_str(), wanted);
}

// What is seen behind choice 12, where `/2` is marked and has not ended.
fn shows_choice_12(rt: &(impl Abort + Print), alloc: Global, debugger: &Debugger) {
    shows(
        rt,
        debugger,
        &What::Tree,
        "/ main hand 1 line 12\n/1 look delivered 10\n/2 look hand 2 line 4 aborted\n",
    );
    shows(
        rt,
        debugger,
        &What::Deques,
        "1: hand / deque\n2: hand /2 deque\n",
    );
    shows(rt, debugger, &What::Globals, "done = 1\n");
    let frame = root_frame(rt, alloc, debugger);
    let wanted = "main line 15\n    best = 1\ntake line 12\n    v = 1\n";
    equal(rt, frame.as_str(), wanted);
}

#[test]
fn a_position_is_the_same_from_both_sides(rt: HostRuntime) {
    let mut debugger = opened(&rt, rt.alloc(), LOOKING, ABORTED);
    goes(&rt, rt.alloc(), &mut debugger, 12);
    shows_choice_12(&rt, rt.alloc(), &debugger);
    goes(&rt, rt.alloc(), &mut debugger, 16);
    for _ in 0..4 {
        goes_back(&rt, rt.alloc(), &mut debugger);
    }
    shows_choice_12(&rt, rt.alloc(), &debugger);
}

#[test]
fn a_debugger_goes_to_breakpoints(rt: HostRuntime) {
    let mut debugger = opened(&rt, rt.alloc(), LOOKING, ABORTED);
    for action in [9, 1, 3] {
        debugger.set_break(action).expect(&rt, "a breakpoint");
    }
    for (position, wanted) in [(2, true), (5, true), (6, true), (8, true), (16, false)] {
        let found = goes_to_next(&rt, rt.alloc(), &mut debugger);
        equal(&rt, found, wanted);
        equal(&rt, debugger.position(), position);
    }
    for (position, wanted) in [(8, true), (6, true), (5, true), (2, true), (0, false)] {
        let found = goes_to_previous(&rt, rt.alloc(), &mut debugger);
        equal(&rt, found, wanted);
        equal(&rt, debugger.position(), position);
    }
}

// A schedule of so many steps of one worker.
fn all_steps(rt: &(impl Abort + Print), alloc: Global, count: usize) -> Log {
    let step = Choice {
        worker: 1,
        act: Act::Step,
    };
    let mut choices = Vec::new(alloc);
    again!(rt; choices.resize(count, step), _, assert!(rt; choices.is_empty()));
    Log {
        program: None,
        workers: 1,
        choices: Choices::of(choices),
    }
}

fn counting(rt: &(impl Abort + Print), alloc: Global) -> Debugger {
    again!(
        rt;
        Debugger::new(alloc, loaded(rt, alloc, COUNTING), all_steps(rt, alloc, 2500)),
        DebugFault::Memory
    )
}

#[test]
fn a_debugger_goes_by_checkpoints(rt: HostRuntime) {
    let mut debugger = counting(&rt, rt.alloc());
    for (k, wanted) in [
        (2500, "main line 3\n    i = 1250\n"),
        (999, "main line 4\n    i = 499\n"),
        (1000, "main line 3\n    i = 500\n"),
        (1001, "main line 4\n    i = 500\n"),
        (0, "main line 3\n    i = 0\n"),
        (2001, "main line 4\n    i = 1000\n"),
    ] {
        goes(&rt, rt.alloc(), &mut debugger, k);
        equal(&rt, debugger.position(), k);
        let frame = root_frame(&rt, rt.alloc(), &debugger);
        equal(&rt, frame.as_str(), wanted);
    }
}
