//! A frame of a program that is known by hand.

ghost use Rattle.std.specs.Prelude.{◌≡◌};
ghost use Rattle.cilk_frame.specs.Frames.{depth};

use super::program;
use crate::equal::equal;
use cilk_frame::{
    Await, Body, Frame, Id, a_call_stands, a_start_stands, a_write_stands, an_action_stands,
    values_are_seen,
};
use cilk_machine::Loaded;
use std::alloc::Global;
use std::process::Abort;

const TEXT: &str =
    "cilk int main(void) { int a; return a; } int f(int b, int c) { int d, e; return b; }";

fn body<'a>(rt: &impl Abort, loaded: &'a Loaded, number: u32) -> &'a Body {
    loaded.body(number).expect(rt, "a body")
}

// Instance 7, of `main`.
fn start(rt: &impl Abort, alloc: Global, loaded: &Loaded) -> Frame {
    let main = body(rt, loaded, 0);
    assert_eq!(rt; main.params, 0);
    Frame::start(alloc, Id::new(7), main, &[]).expect(rt, "memory")
}

// Another body goes on.
fn call(
    rt: &impl Abort,
    frame: &mut Frame,
    callee: &Body,
    arguments: &[i32],
    awaits: Option<Await>,
) {
    assert_eq!(rt; callee.params as usize, arguments.len());
    assert!(rt; frame.depth() < Frame::DEPTH);
    frame.enter(callee, arguments, awaits).expect(rt, "memory");
}

#[test]
fn goes_on_and_ends(rt: HostRuntime) {
    let loaded = program(&rt, rt.alloc(), TEXT);
    let mut frame = start(&rt, rt.alloc(), &loaded);
    goes_on(&rt, &mut frame);
    frame.finish();
}

fn goes_on(rt: &impl Abort, frame: &mut Frame) {
    equal(rt, frame.id(), Id::new(7));
    equal(rt, frame.id().number(), 7);
    equal(rt, frame.awaits(), None);
    stands(rt, frame, 1, 0);
    assert!(rt; !frame.at_boundary());
    assert_eq!(rt; frame.cells(0).len(), 1);
    frame.set_cell(0, 0, -5);
    frame.jump(2);
    frame.set_boundary(true);
    stands(rt, frame, 2, -5);
    assert!(rt; frame.at_boundary());
}

// Its one activation goes on with this action, and has one cell.
fn stands(rt: &impl Abort, frame: &Frame, node: u32, cell: i32)
    ensures { depth frame.now ≡ 1 }
{
    assert_eq!(rt; frame.depth(), 1);
    equal(rt, frame.node(0), node);
    equal(rt, frame.cells(0), [cell].as_slice());
}

#[test]
fn calls_and_returns(rt: HostRuntime) {
    let loaded = program(&rt, rt.alloc(), TEXT);
    let mut frame = start(&rt, rt.alloc(), &loaded);
    let awaits = Await { n: 2, index: 3 };
    calls(&rt, &loaded, &mut frame, awaits);
    returns(&rt, &mut frame, awaits);
}

fn calls(rt: &impl Abort, loaded: &Loaded, frame: &mut Frame, awaits: Await)
    ensures { depth frame.new ≡ 3 }
{
    call(rt, frame, body(rt, loaded, 1), &[6, -7], Some(awaits));
    equal(rt, frame.awaits(), Some(awaits));
    call(rt, frame, body(rt, loaded, 0), &[], None);
    assert_eq!(rt; frame.depth(), 3);
    equal(rt, frame.cells(1), [6, -7, 0, 0].as_slice());
    frame.jump(2);
    has_three(rt, frame);
}

fn has_three(rt: &impl Abort, frame: &Frame)
    ensures { depth frame.now ≡ 3 }
{
    assert_eq!(rt; frame.depth(), 3);
    equal(rt, frame.node(0), 1);
    equal(rt, frame.node(1), 3);
    equal(rt, frame.node(2), 2);
}

fn returns(rt: &impl Abort, frame: &mut Frame, awaits: Await)
    requires { depth frame.old ≡ 3 }
{
    equal(rt, frame.leave(), None);
    equal(rt, frame.depth(), 2);
    equal(rt, frame.leave(), Some(awaits));
    equal(rt, frame.depth(), 1);
}

#[test]
fn laws_are_called() {
    a_start_stands();
    values_are_seen();
    a_write_stands();
    an_action_stands();
    a_call_stands();
}
