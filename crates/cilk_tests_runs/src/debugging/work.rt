//! What a debugger's moves cost, by the positions.

use super::{debugger, told};
use crate::equal::equal;
use cilk_debug::{Debugger, What};
use cilk_spawn::Path;
use std::alloc::Global;
use std::process::Abort;

// A loop without end, a round of which is two steps.
const COUNTING: &str = "cilk int main(void) { int i; for (;;) i++; }";

#[derive(Drop)]
enum Move {
    Step,
    Back,
    Go(u64),
}

// A schedule of so many steps of one worker.
fn steps(rt: &impl Abort, alloc: Global, count: usize) -> String {
    let mut text = String::from_str(alloc, "cilklog 1\nworkers 1\n").expect(rt, "memory");
    for _ in 0..count {
        text.push_str("1 step\n").expect(rt, "memory");
    }
    let end = format!(in alloc; "end {count}\n").expect(rt, "memory");
    text.push_str(end.as_str()).expect(rt, "memory");
    text
}

// Makes the moves, and asserts how many choices were made and taken back for all of them so far.
fn works(rt: &impl Abort, alloc: Global, debugger: &mut Debugger, wanted: &[(Move, u64)]) {
    for (one, work) in wanted {
        let answer = match one {
            Move::Step => debugger.step(),
            Move::Back => debugger.back(),
            Move::Go(k) => debugger.go(*k),
        };
        equal(rt, told(rt, alloc, answer).as_str(), "ok");
        equal(rt, debugger.work(), *work);
    }
}

fn stands_in_main(rt: &impl Abort, alloc: Global, debugger: &Debugger, wanted: &str) {
    let frame = debugger
        .view(&What::Frame(Path::root(alloc)))
        .expect(rt, wanted);
    equal(rt, frame.as_str(), wanted);
}

#[test]
fn each_move_is_made_from_the_nearest_checkpoint(rt: HostRuntime) {
    let recorded = steps(&rt, rt.alloc(), 2500);
    let mut debugger = debugger(&rt, rt.alloc(), COUNTING, recorded.as_str());
    equal(&rt, debugger.work(), 0);
    let to_999 = [
        (Move::Go(2500), 500),
        (Move::Back, 501),
        (Move::Go(999), 1500),
    ];
    works(&rt, rt.alloc(), &mut debugger, &to_999);
    stands_in_main(&rt, rt.alloc(), &debugger, "main line 4\n    i = 499\n");
    works(&rt, rt.alloc(), &mut debugger, &[(Move::Step, 1500)]);
    stands_in_main(&rt, rt.alloc(), &debugger, "main line 3\n    i = 500\n");
    let and_back = [(Move::Step, 1501), (Move::Back, 1502), (Move::Back, 2501)];
    works(&rt, rt.alloc(), &mut debugger, &and_back);
    stands_in_main(&rt, rt.alloc(), &debugger, "main line 4\n    i = 499\n");
}

#[test]
fn a_move_between_two_checkpoints_goes_the_way_between(rt: HostRuntime) {
    let recorded = steps(&rt, rt.alloc(), 1999);
    let mut debugger = debugger(&rt, rt.alloc(), COUNTING, recorded.as_str());
    let moves = [
        (Move::Go(300), 300),
        (Move::Go(900), 900),
        (Move::Go(900), 900),
        (Move::Go(250), 1550),
        (Move::Go(0), 1800),
        (Move::Go(1500), 2300),
        (Move::Go(1999), 2799),
        (Move::Go(1000), 3798),
        (Move::Go(999), 4797),
    ];
    works(&rt, rt.alloc(), &mut debugger, &moves);
}

#[test]
fn a_refused_move_is_no_work(rt: HostRuntime) {
    let recorded = steps(&rt, rt.alloc(), 10);
    let mut debugger = debugger(&rt, rt.alloc(), COUNTING, recorded.as_str());
    let back = debugger.back();
    equal(&rt, told(&rt, rt.alloc(), back).as_str(), "B3 AtStart");
    let far = debugger.go(11);
    equal(&rt, told(&rt, rt.alloc(), far).as_str(), "B6 OutOfRange");
    works(&rt, rt.alloc(), &mut debugger, &[(Move::Go(10), 10)]);
    let step = debugger.step();
    equal(&rt, told(&rt, rt.alloc(), step).as_str(), "B2 AtEnd");
    for action in [0, 5] {
        let set = debugger.set_break(action);
        equal(&rt, told(&rt, rt.alloc(), set).as_str(), "B4 NoStatement");
        let clear = debugger.clear_break(action);
        equal(&rt, told(&rt, rt.alloc(), clear).as_str(), "B4 NoStatement");
    }
    equal(&rt, debugger.work(), 10);
}

#[test]
fn a_search_costs_the_move_to_what_is_found(rt: HostRuntime) {
    let recorded = steps(&rt, rt.alloc(), 1400);
    let mut debugger = debugger(&rt, rt.alloc(), COUNTING, recorded.as_str());
    debugger.set_break(1).expect(&rt, "a breakpoint");
    assert!(rt; debugger.forward_to_break().expect(&rt, "a move"));
    let first = debugger.position();
    equal(&rt, debugger.work(), first);
    debugger.clear_break(1).expect(&rt, "no breakpoint");
    assert!(rt; !debugger.forward_to_break().expect(&rt, "a move"));
    equal(&rt, debugger.work(), first + 400);
    assert!(rt; !debugger.back_to_break().expect(&rt, "a move"));
    equal(&rt, debugger.position(), 0);
    equal(&rt, debugger.work(), first + 400);
}

// Whether a breakpoint was found, or the way was gone to its end, no answer of a session tells.
#[test]
fn a_trap_is_found(rt: HostRuntime) {
    let text = "cilk int main(void) { return 2147483647 + 1; }";
    let recorded = "cilklog 1\nworkers 1\n1 step\nend 1\n";
    let mut debugger = debugger(&rt, rt.alloc(), text, recorded);
    assert!(rt; !debugger.forward_to_break().expect(&rt, "a move"));
    debugger.set_break(1).expect(&rt, "a breakpoint");
    assert!(rt; !debugger.back_to_break().expect(&rt, "a move"));
    assert!(rt; debugger.forward_to_break().expect(&rt, "a move"));
    equal(&rt, debugger.position(), 1);
}
