//! Frames that start, enter bodies, and are made of images.

use super::texts::loaded;
use super::{page, tell_refused};
use crate::equal::equal;
use cilk_frame::{Activation, Await, Frame, FrameImage, Id};
use cilk_load::{Body, Loaded};
use std::alloc::Global;
use std::process::Abort;

pub const TEXT: &str =
    "cilk int main(void) { int a; return a; } int f(int b, int c) { int d, e; return b; }";

// A frame of `main`.
pub fn started(rt: &(impl Abort + Print), alloc: Global, loaded: &Loaded, number: usize) -> Frame {
    let main = loaded.body(0).expect(rt, "a body");
    assert_eq!(rt; main.params, 0);
    again!(rt; Frame::start(alloc, Id::new(number), main, &[]), _)
}

// All that a frame tells.
pub fn told(rt: &(impl Abort + Print), alloc: Global, frame: &Frame) -> String {
    let mut text = page(rt, alloc);
    let id = frame.id().number();
    let boundary = frame.at_boundary();
    let awaits = frame.awaits();
    write!(text, "{id} {boundary} {awaits:?}\n").expect(rt, "room");
    for i in 0..frame.depth() {
        let node = frame.node(i);
        let cells = frame.cells(i);
        write!(text, "{node} {cells:?}\n").expect(rt, "room");
    }
    text
}

// A body with two parameters goes on.
fn enters(rt: &(impl Abort + Print), alloc: Global, frame: &mut Frame, body: &Body) {
    assert_eq!(rt; body.params, 2);
    let depth = frame.depth();
    assert!(rt; depth < Frame::DEPTH);
    let before = told(rt, alloc, frame);
    let awaits = Some(Await { n: depth, index: 3 });
    again!(
        rt;
        frame.enter(body, &[6, -7], awaits),
        _,
        equal(rt, told(rt, alloc, frame).as_str(), before.as_str())
    );
}

pub fn boxed(rt: &(impl Abort + Print), alloc: Global, left: Activation) -> Box<Activation> {
    match Box::new(alloc, left) {
        Ok(left) => left,
        Err(failed) => {
            tell_refused(rt, "Box::new()");
            Box::new(alloc, failed.value).ok().expect(rt, "memory")
        }
    }
}

// A body that was left goes on again.
fn enters_again(rt: &(impl Abort + Print), alloc: Global, frame: &mut Frame, left: Activation) {
    let left = boxed(rt, alloc, left);
    assert!(rt; frame.depth() < Frame::DEPTH);
    let before = told(rt, alloc, frame);
    if let Err(left) = frame.enter_again(left) {
        tell_refused(rt, "frame.enter_again()");
        equal(rt, told(rt, alloc, frame).as_str(), before.as_str());
        frame.enter_again(left).ok().expect(rt, "memory");
    }
}

// All bodies that one frame leaves, but for its first, go on in the other, the last of them first.
fn go_over(rt: &(impl Abort + Print), alloc: Global, from: &mut Frame, to: &mut Frame) {
    for _ in 0..9 {
        assert!(rt; 1 < from.depth());
        enters_again(rt, alloc, to, from.withdraw());
    }
    assert_eq!(rt; from.depth(), 1);
    assert_eq!(rt; to.depth(), 10);
}

fn image_of(rt: &(impl Abort + Print), frame: &Frame) -> FrameImage {
    again!(rt; frame.image(), _)
}

fn restored(rt: &(impl Abort + Print), image: &FrameImage) -> Frame {
    again!(rt; Frame::restore(image), _)
}

// A frame of `main`, in which nine bodies are open besides.
pub fn with_bodies(
    rt: &(impl Abort + Print),
    alloc: Global,
    loaded: &Loaded,
    number: usize,
) -> Frame {
    let callee = loaded.body(1).expect(rt, "a body");
    let mut frame = started(rt, alloc, loaded, number);
    for _ in 0..9 {
        enters(rt, alloc, &mut frame, callee);
    }
    frame
}

#[test]
fn a_frame_grows(rt: HostRuntime) {
    let loaded = loaded(&rt, rt.alloc(), TEXT);
    let mut frame = with_bodies(&rt, rt.alloc(), &loaded, 7);
    let whole = told(&rt, rt.alloc(), &frame);
    let image = image_of(&rt, &frame);
    let copy = restored(&rt, &image);
    equal(&rt, told(&rt, rt.alloc(), &copy).as_str(), whole.as_str());
    let mut other = started(&rt, rt.alloc(), &loaded, 7);
    go_over(&rt, rt.alloc(), &mut frame, &mut other);
    equal(&rt, other.awaits(), Some(Await { n: 1, index: 3 }));
    go_over(&rt, rt.alloc(), &mut other, &mut frame);
    equal(&rt, told(&rt, rt.alloc(), &frame).as_str(), whole.as_str());
}
