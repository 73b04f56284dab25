//! Hands whose deques grow at both ends, and whose frames enter bodies again; and hands that are made of images.

ghost use Rattle.std.specs.Prelude.{◌≡◌, length};

use super::frames::{self, boxed, started, with_bodies};
use super::texts::loaded;
use super::{page, tell_refused};
use crate::equal::equal;
use cilk_frame::{Activation, Frame};
use cilk_load::Loaded;
use cilk_sched::{Hands, HandsImage};
use std::alloc::Global;
use std::process::Abort;

fn opened(rt: &(impl Abort + Print), alloc: Global) -> Hands
    ensures { length result ≡ 3 }
{
    again!(rt; Hands::new(alloc, 3), _)
}

fn put(rt: &(impl Abort + Print), alloc: Global, text: &mut String, frame: Option<&Frame>) {
    if let Some(frame) = frame {
        let frame = frames::told(rt, alloc, frame);
        write!(text, "{frame}").expect(rt, "room");
    }
}

// All that the hands of three workers tell.
fn told(rt: &(impl Abort + Print), alloc: Global, hands: &Hands) -> String
    requires { length hands.now ≡ 3 }
{
    let mut text = page(rt, alloc);
    for worker in 1..4 {
        let count = hands.len(worker);
        write!(text, "worker {worker}: {count}\n").expect(rt, "room");
        put(rt, alloc, &mut text, hands.hand(worker));
        for i in 0..count {
            put(rt, alloc, &mut text, hands.queued(worker, i));
        }
    }
    text
}

fn push(rt: &(impl Abort + Print), alloc: Global, hands: &mut Hands, frame: Frame)
    requires { length hands.old ≡ 3 }
    ensures { length hands.new ≡ 3 }
{
    let before = told(rt, alloc, hands);
    if let Err(frame) = hands.push_bottom(2, frame) {
        tell_refused(rt, "hands.push_bottom()");
        equal(rt, told(rt, alloc, hands).as_str(), before.as_str());
        hands.push_bottom(2, frame).ok().expect(rt, "memory");
    }
}

fn push_top(rt: &(impl Abort + Print), alloc: Global, hands: &mut Hands, frame: Frame)
    requires { length hands.old ≡ 3 }
    ensures { length hands.new ≡ 3 }
{
    let before = told(rt, alloc, hands);
    if let Err(frame) = hands.push_top(3, frame) {
        tell_refused(rt, "hands.push_top()");
        equal(rt, told(rt, alloc, hands).as_str(), before.as_str());
        hands.push_top(3, frame).ok().expect(rt, "memory");
    }
}

// Worker 2 gets a frame of this number at the bottom, and worker 3 one at the top.
fn push_two(
    rt: &(impl Abort + Print),
    alloc: Global,
    loaded: &Loaded,
    hands: &mut Hands,
    number: usize,
)
    requires { length hands.old ≡ 3 }
    ensures { length hands.new ≡ 3 }
{
    push(rt, alloc, hands, started(rt, alloc, loaded, number));
    push_top(rt, alloc, hands, started(rt, alloc, loaded, number));
}

// The frame in the hand of worker 2 leaves its last body.
fn left(rt: &(impl Abort + Print), hands: &mut Hands) -> Activation
    requires { length hands.old ≡ 3 }
    ensures { length hands.new ≡ 3 }
{
    let frame = hands.hand(2).expect(rt, "a frame");
    assert!(rt; 1 < frame.depth());
    hands.withdraw(2).expect(rt, "a body")
}

// It goes on in the hand of worker 3.
fn enters_again(rt: &(impl Abort + Print), alloc: Global, hands: &mut Hands, left: Activation)
    requires { length hands.old ≡ 3 }
    ensures { length hands.new ≡ 3 }
{
    let left = boxed(rt, alloc, left);
    let before = told(rt, alloc, hands);
    let frame = hands.hand(3).expect(rt, "a frame");
    assert!(rt; frame.depth() < Frame::DEPTH);
    if let Err(left) = hands.enter_again(3, left) {
        tell_refused(rt, "hands.enter_again()");
        equal(rt, told(rt, alloc, hands).as_str(), before.as_str());
        hands.enter_again(3, left).ok().expect(rt, "memory");
    }
}

fn image_of(rt: &(impl Abort + Print), hands: &Hands) -> HandsImage
    ensures { result ≡ hands.now }
{
    again!(rt; hands.image(), _)
}

fn restored(rt: &(impl Abort + Print), image: &HandsImage) -> Hands
    ensures { result ≡ image.now }
{
    again!(rt; Hands::restore(image), _)
}

// Hands that are made of an image tell the same.
fn is_made_anew(rt: &(impl Abort + Print), alloc: Global, hands: &Hands)
    requires { length hands.now ≡ 3 }
{
    let image = image_of(rt, hands);
    let copy = restored(rt, &image);
    let whole = told(rt, alloc, hands);
    equal(rt, told(rt, alloc, &copy).as_str(), whole.as_str());
}

// Worker 2 has a frame in its hand and five in its deque, and worker 3 one in its hand and five in its deque.
fn filled(rt: &(impl Abort + Print), alloc: Global, loaded: &Loaded) -> Hands
    ensures { length result ≡ 3 }
{
    let mut hands = opened(rt, alloc);
    assert!(rt; hands.hand(2).is_none());
    hands.give(2, with_bodies(rt, alloc, loaded, 9));
    assert!(rt; hands.hand(3).is_none());
    hands.give(3, started(rt, alloc, loaded, 8));
    push_two(rt, alloc, loaded, &mut hands, 0);
    push_two(rt, alloc, loaded, &mut hands, 1);
    push_two(rt, alloc, loaded, &mut hands, 2);
    push_two(rt, alloc, loaded, &mut hands, 3);
    push_two(rt, alloc, loaded, &mut hands, 4);
    hands
}

fn number(frame: Option<&Frame>) -> Option<usize> {
    frame.map(|frame| frame.id().number())
}

fn depth(frame: Option<&Frame>) -> Option<u32> {
    frame.map(|frame| frame.depth())
}

#[test]
fn deques_grow(rt: HostRuntime) {
    let loaded = loaded(&rt, rt.alloc(), frames::TEXT);
    let hands = filled(&rt, rt.alloc(), &loaded);
    is_made_anew(&rt, rt.alloc(), &hands);
    equal(&rt, number(hands.queued(2, 4)), Some(4));
    equal(&rt, number(hands.queued(3, 4)), Some(0));
}

#[test]
fn frames_in_hands_enter_again(rt: HostRuntime) {
    let loaded = loaded(&rt, rt.alloc(), frames::TEXT);
    let mut hands = filled(&rt, rt.alloc(), &loaded);
    for _ in 0..9 {
        let body = left(&rt, &mut hands);
        enters_again(&rt, rt.alloc(), &mut hands, body);
    }
    equal(&rt, depth(hands.hand(2)), Some(1));
    equal(&rt, depth(hands.hand(3)), Some(10));
}
