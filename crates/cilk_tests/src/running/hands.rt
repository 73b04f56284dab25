//! Frames that go from hand to hand.

ghost use Rattle.std.specs.Prelude.{◌≡◌, None, length};
ghost use Rattle.cilk_machine.specs.model.Hands.{IsWorker, hand_of, with_hand};

use super::program;
use crate::equal::equal;
use cilk_frame::{Frame, Id};
use cilk_machine::Loaded;
use cilk_sched::{
    Hands, each_frame_is_counted, moves_are_counted, names_are_read, names_go_along,
    others_keep_their_places,
};
use std::alloc::Global;
use std::process::Abort;

const TEXT: &str = "cilk int main(void) {}";

fn frame(rt: &impl Abort, alloc: Global, loaded: &Loaded, number: usize) -> Frame {
    let main = loaded.body(0).expect(rt, "a body");
    assert_eq!(rt; main.params, 0);
    Frame::start(alloc, Id::new(number), main, &[]).expect(rt, "memory")
}

fn number(frame: Option<&Frame>) -> Option<usize> {
    frame.map(|f| f.id().number())
}

fn spent(frame: Option<Frame>) -> Option<usize> {
    let number = number(frame.as_ref());
    if let Some(frame) = frame {
        frame.finish();
    }
    number
}

// A frame of this number goes to the bottom of the worker's deque.
fn push(
    rt: &impl Abort,
    alloc: Global,
    loaded: &Loaded,
    hands: &mut Hands,
    worker: u8,
    number: usize,
)
    requires { IsWorker hands.old worker }
    ensures { length hands.new ≡ length hands.old }
{
    let frame = frame(rt, alloc, loaded, number);
    let back = spent(hands.push_bottom(worker, frame).err());
    equal(rt, back, None);
}

// The frame in the worker's hand is taken, and has this number.
fn takes(rt: &impl Abort, hands: &mut Hands, worker: u8, wanted: Option<usize>)
    requires { IsWorker hands.old worker }
    ensures { hands.new ≡ with_hand hands.old worker None }
{
    let taken = spent(hands.take(worker));
    equal(rt, taken, wanted);
}

#[test]
fn hands_hold_one(rt: HostRuntime) {
    let mut hands = Hands::new(rt.alloc(), 2).expect(&rt, "memory");
    takes(&rt, &mut hands, 1, None);
    gives_one(&rt, rt.alloc(), &mut hands);
    takes(&rt, &mut hands, 1, Some(7));
    equal(&rt, number(hands.hand(1)), None);
}

// Worker 1 has a frame in its hand then, and nothing else is anywhere.
fn gives_one(rt: &impl Abort, alloc: Global, hands: &mut Hands)
    requires two { length hands.old ≡ 2 }
    requires empty { hand_of hands.old 1 ≡ None }
    ensures { length hands.new ≡ 2 }
{
    let loaded = program(rt, alloc, TEXT);
    hands.give(1, frame(rt, alloc, &loaded, 7));
    has_one(rt, hands);
}

fn has_one(rt: &impl Abort, hands: &Hands)
    requires { length hands.now ≡ 2 }
{
    equal(rt, number(hands.hand(1)), Some(7));
    equal(rt, number(hands.hand(2)), None);
    equal(rt, hands.len(1), 0);
}

#[test]
fn deques_have_two_ends(rt: HostRuntime) {
    let mut hands = Hands::new(rt.alloc(), 3).expect(&rt, "memory");
    fill(&rt, rt.alloc(), &mut hands);
    stand_in_order(&rt, &hands);
    leave_by_both_ends(&rt, &mut hands);
}

// Frames 4, 5 and 6 stand in the deque of worker 2 then.
fn fill(rt: &impl Abort, alloc: Global, hands: &mut Hands)
    requires { length hands.old ≡ 3 }
    ensures { length hands.new ≡ 3 }
{
    let loaded = program(rt, alloc, TEXT);
    push(rt, alloc, &loaded, hands, 2, 4);
    push(rt, alloc, &loaded, hands, 2, 5);
    push(rt, alloc, &loaded, hands, 2, 6);
}

fn stand_in_order(rt: &impl Abort, hands: &Hands)
    requires { length hands.now ≡ 3 }
{
    equal(rt, hands.len(1), 0);
    equal(rt, hands.len(2), 3);
    equal(rt, hands.len(3), 0);
    for (i, wanted) in [(0, Some(4)), (1, Some(5)), (2, Some(6)), (3, None)] {
        equal(rt, number(hands.queued(2, i)), wanted);
    }
}

fn leave_by_both_ends(rt: &impl Abort, hands: &mut Hands)
    requires { length hands.old ≡ 3 }
{
    steals(rt, hands, Some(4));
    pops(rt, hands, Some(6));
    pops(rt, hands, Some(5));
    pops(rt, hands, None);
    steals(rt, hands, None);
    equal(rt, number(hands.hand(2)), None);
}

fn steals(rt: &impl Abort, hands: &mut Hands, wanted: Option<usize>)
    requires { length hands.old ≡ 3 }
    ensures { length hands.new ≡ 3 }
{
    let stolen = spent(hands.steal_top(2));
    equal(rt, stolen, wanted);
}

fn pops(rt: &impl Abort, hands: &mut Hands, wanted: Option<usize>)
    requires { length hands.old ≡ 3 }
    ensures { length hands.new ≡ 3 }
{
    let popped = spent(hands.pop_bottom(2));
    equal(rt, popped, wanted);
}

#[test]
fn there_are_as_many_as_asked_for(rt: HostRuntime) {
    drop(Hands::new(rt.alloc(), 0).expect(&rt, "memory"));
    let mut hands = Hands::new(rt.alloc(), 255).expect(&rt, "memory");
    gives_the_last(&rt, rt.alloc(), &mut hands);
}

fn gives_the_last(rt: &impl Abort, alloc: Global, hands: &mut Hands)
    requires last { length hands.old ≡ 255 }
    requires empty { hand_of hands.old 255 ≡ None }
{
    let loaded = program(rt, alloc, TEXT);
    hands.give(255, frame(rt, alloc, &loaded, 1));
    has_the_last(rt, hands);
}

fn has_the_last(rt: &impl Abort, hands: &Hands)
    requires { length hands.now ≡ 255 }
{
    equal(rt, number(hands.hand(255)), Some(1));
    equal(rt, number(hands.hand(254)), None);
}

#[test]
fn laws_are_called() {
    others_keep_their_places();
    moves_are_counted();
    each_frame_is_counted();
    names_go_along();
    names_are_read();
}
