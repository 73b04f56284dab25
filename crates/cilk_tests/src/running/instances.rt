//! Trees of a few instances.

ghost use Rattle.std.specs.Prelude.{◌≡◌, ◌<◌, None, length, true};
ghost use Rattle.cilk_spawn.specs.Nodes.{node_at, is_live};

use super::{is_word, program};
use crate::equal::equal;
use cilk_frame::{Area, BinOp, Slot};
use cilk_machine::Loaded;
use cilk_spawn::{
    Arguments, Delivery, Ending, Fate, Frame, Id, Path, Receiver, Tree, a_return_ends_and_sends,
    ids_change, paths_are_names, paths_stay, trees_stay_trees,
};
use std::alloc::Global;
use std::process::Abort;

// `x += spawn f();` of a variable that is no array, by action n
fn adds(n: u32) -> Receiver {
    Receiver::Place {
        op: Some(BinOp::Add),
        slot: Slot {
            area: Area::Own,
            offset: 2,
            length: 0,
        },
        index: 0,
        spawn: n,
    }
}

// `i(spawn f(), 7, -8);` by action n
fn calls(rt: &impl Abort, alloc: Global, n: u32) -> Receiver {
    let values = Vec::from_slice(alloc, &[7, -8]).expect(rt, "memory");
    Receiver::Call {
        n,
        args: Arguments::new(values),
    }
}

// The live instance with this path.
fn at(rt: &impl Abort, tree: &Tree, path: &[u32]) -> Id
    ensures there { result < length tree.now.nodes }
    ensures live { is_live (node_at tree.now.nodes result) ≡ true }
{
    let id = tree.find(path).expect(rt, "an instance");
    assert!(rt; tree.fate(id) == Fate::Live);
    id
}

// The root and so many children whose values nobody takes.
fn family(rt: &impl Abort, alloc: Global, count: u32) -> Tree {
    let mut tree = Tree::new(alloc, 4).expect(rt, "memory");
    for _ in 0..count {
        spawn(rt, &mut tree, &[], Receiver::Nothing);
    }
    tree
}

fn spawn(rt: &impl Abort, tree: &mut Tree, parent: &[u32], receiver: Receiver) {
    let parent = at(rt, tree, parent);
    assert!(rt; tree.children(parent) < 9);
    let next = tree.next_id();
    let child = tree.add_child(parent, 5, receiver).expect(rt, "memory");
    equal(rt, child, next);
}

// The instance gives a value, and ends.
fn give(rt: &impl Abort, tree: &mut Tree, path: &[u32], value: i32) {
    let child = at(rt, tree, path);
    assert!(rt;
        matches!(
            tree.receiver(child),
            Receiver::Place { .. } | Receiver::Call { .. }
        )
    );
    tree.deliver(child, value).expect(rt, "memory");
    end(rt, tree, path, Ending::Returned, 1);
}

fn end(rt: &impl Abort, tree: &mut Tree, path: &[u32], ending: Ending, choice: u64) {
    let id = at(rt, tree, path);
    assert!(rt; !tree.has_live_child(id));
    assert!(rt; tree.parked(id).is_none());
    tree.end(id, ending, choice);
}

#[test]
fn children_have_paths(rt: HostRuntime) {
    let mut tree = family(&rt, rt.alloc(), 0);
    bear_three(&rt, &mut tree);
    are_found(&rt, &tree);
    are_named(&rt, &tree);
}

fn bear_three(rt: &impl Abort, tree: &mut Tree) {
    equal(rt, tree.next_id(), Id::new(1));
    spawn(rt, tree, &[], Receiver::Nothing);
    spawn(rt, tree, &[], adds(5));
    spawn(rt, tree, &[2], Receiver::Nothing);
}

fn are_found(rt: &impl Abort, tree: &Tree) {
    for (path, id) in [
        ([].as_slice(), Some(Id::new(0))),
        ([1].as_slice(), Some(Id::new(1))),
        ([2].as_slice(), Some(Id::new(2))),
        ([2, 1].as_slice(), Some(Id::new(3))),
        ([1, 1].as_slice(), None),
        ([2, 1, 1].as_slice(), None),
        ([0].as_slice(), None),
    ] {
        equal(rt, tree.find(path), id);
    }
}

fn are_named(rt: &impl Abort, tree: &Tree) {
    for path in [[].as_slice(), [2].as_slice(), [2, 1].as_slice()] {
        let named = tree.path_of(at(rt, tree, path)).expect(rt, "memory");
        equal(rt, named.as_slice(), path);
    }
}

#[test]
fn readers_tell_what_was_put_in(rt: HostRuntime) {
    let mut tree = family(&rt, rt.alloc(), 1);
    spawn(&rt, &mut tree, &[], adds(5));
    spawn(&rt, &mut tree, &[2], calls(&rt, rt.alloc(), 6));
    are_related(&rt, &tree);
    take_values(&rt, rt.alloc(), &tree);
}

// Of each path its parent, its procedure and its children.
fn are_related(rt: &impl Abort, tree: &Tree) {
    for (path, parent, procedure, children) in [
        ([].as_slice(), None, 4, 2),
        ([1].as_slice(), Some(Id::new(0)), 5, 0),
        ([2].as_slice(), Some(Id::new(0)), 5, 1),
        ([2, 1].as_slice(), Some(Id::new(2)), 5, 0),
    ] {
        let id = at(rt, tree, path);
        equal(rt, tree.parent(id), parent);
        equal(rt, tree.procedure(id), procedure);
        equal(rt, tree.children(id), children);
    }
}

// `x += spawn f();` by action 5, as `adds` has it.
const ADDS: &str =
    "Place { op: Some(Add), slot: Slot { area: Own, offset: 2, length: 0 }, index: 0, spawn: 5 }";

fn take_values(rt: &impl Abort, alloc: Global, tree: &Tree) {
    for (path, receiver) in [
        ([].as_slice(), "Nothing"),
        ([1].as_slice(), "Nothing"),
        ([2].as_slice(), ADDS),
        (
            [2, 1].as_slice(),
            "Call { n: 6, args: Arguments { values: [7, -8] } }",
        ),
    ] {
        takes(rt, alloc, tree.receiver(at(rt, tree, path)), receiver);
    }
}

// The receiver is this one, as `Debug` writes it.
fn takes(rt: &impl Abort, alloc: Global, receiver: &Receiver, wanted: &str) {
    let told = format!(in alloc; "{receiver:?}").expect(rt, "memory");
    is_word(rt, told.as_str(), wanted);
}

#[test]
fn those_that_ended_are_found_too(rt: HostRuntime) {
    let mut tree = family(&rt, rt.alloc(), 2);
    end_both(&rt, &mut tree);
    are_numbered(&rt, &tree);
    have_fates(&rt, &mut tree);
}

fn end_both(rt: &impl Abort, tree: &mut Tree) {
    equal(rt, tree.live(), 3);
    end(rt, tree, &[1], Ending::Returned, 4);
    equal(rt, tree.live(), 2);
    assert!(rt; tree.has_live_child(at(rt, tree, &[])));
    end(rt, tree, &[2], Ending::Aborted, 5);
    assert!(rt; !tree.has_live_child(at(rt, tree, &[])));
}

fn are_numbered(rt: &impl Abort, tree: &Tree) {
    for i in 0..3 {
        equal(rt, tree.nth(i), Some(Id::new(i)));
    }
    equal(rt, tree.nth(3), None);
    equal(rt, tree.find(&[1]), Some(Id::new(1)));
}

// A third child is born behind those that ended.
fn have_fates(rt: &impl Abort, tree: &mut Tree) {
    spawn(rt, tree, &[], Receiver::Nothing);
    for (path, fate) in [
        ([].as_slice(), Fate::Live),
        ([1].as_slice(), Fate::Returned),
        ([2].as_slice(), Fate::Aborted(5)),
        ([3].as_slice(), Fate::Live),
    ] {
        has_fate(rt, tree, path, fate);
    }
    equal(rt, tree.find(&[4]), None);
}

fn has_fate(rt: &impl Abort, tree: &Tree, path: &[u32], fate: Fate) {
    let id = tree.find(path).expect(rt, "an instance");
    equal(rt, tree.fate(id), fate);
}

#[test]
fn an_abort_marks_those_below(rt: HostRuntime) {
    let mut tree = family(&rt, rt.alloc(), 2);
    spawn(&rt, &mut tree, &[1], Receiver::Nothing);
    spawn(&rt, &mut tree, &[1, 1], Receiver::Nothing);
    mark(&rt, &mut tree, &[1]);
    let below_one = [
        ([].as_slice(), false),
        ([1].as_slice(), false),
        ([2].as_slice(), false),
        ([1, 1].as_slice(), true),
        ([1, 1, 1].as_slice(), true),
    ];
    are_marked(&rt, &tree, &below_one);
    end(&rt, &mut tree, &[1, 1, 1], Ending::Aborted, 7);
    spawn(&rt, &mut tree, &[1, 1], Receiver::Nothing);
    are_marked(&rt, &tree, &[([1, 1, 2].as_slice(), true)]);
    mark(&rt, &mut tree, &[]);
    let below_the_root = [
        ([].as_slice(), false),
        ([1].as_slice(), true),
        ([2].as_slice(), true),
        ([1, 1].as_slice(), true),
    ];
    are_marked(&rt, &tree, &below_the_root);
}

// Of these paths those are marked of which it is said.
fn are_marked(rt: &impl Abort, tree: &Tree, paths: &[(&[u32], bool)]) {
    for &(path, is_marked) in paths {
        equal(rt, tree.is_aborted(at(rt, tree, path)), is_marked);
    }
}

fn mark(rt: &impl Abort, tree: &mut Tree, path: &[u32]) {
    let id = at(rt, tree, path);
    tree.mark_aborted(id);
}

#[test]
fn the_oldest_delivery_comes_first(rt: HostRuntime) {
    let mut tree = family(&rt, rt.alloc(), 0);
    spawn(&rt, &mut tree, &[], adds(5));
    spawn(&rt, &mut tree, &[], calls(&rt, rt.alloc(), 6));
    give_two(&rt, &mut tree);
    for wanted in [
        Some((2, -7, "Call { n: 6, args: Arguments { values: [7, -8] } }")),
        Some((1, 9, ADDS)),
        None,
    ] {
        takes_first(&rt, rt.alloc(), &mut tree, wanted);
    }
    are_delivered(&rt, &tree);
}

// The second child gives its value before the first.
fn give_two(rt: &impl Abort, tree: &mut Tree) {
    assert!(rt; tree.first_delivery(at(rt, tree, &[])).is_none());
    give(rt, tree, &[2], -7);
    give(rt, tree, &[1], 9);
    let root = at(rt, tree, &[]);
    equal(rt, tree.waiting(root), 2);
    assert!(rt; !tree.is_synched(root));
}

// The root's oldest delivery is of this child, with this value, for this receiver, and it is taken.
fn takes_first(
    rt: &impl Abort,
    alloc: Global,
    tree: &mut Tree,
    wanted: Option<(usize, i32, &str)>,
) {
    let root = at(rt, tree, &[]);
    is_delivery(rt, alloc, tree.first_delivery(root), wanted);
    let taken = tree.take_delivery(root, 8);
    is_delivery(rt, alloc, taken.as_ref(), wanted);
}

fn is_delivery(
    rt: &impl Abort,
    alloc: Global,
    delivery: Option<&Delivery>,
    wanted: Option<(usize, i32, &str)>,
) {
    match (delivery, wanted) {
        (Some(delivery), Some((child, value, receiver))) => {
            equal(rt, delivery.child.number(), child);
            equal(rt, delivery.value, value);
            takes(rt, alloc, &delivery.receiver, receiver);
        }
        (delivery, wanted) => assert!(rt; delivery.is_none() && wanted.is_none()),
    }
}

fn are_delivered(rt: &impl Abort, tree: &Tree) {
    assert!(rt; tree.is_synched(at(rt, tree, &[])));
    has_fate(rt, tree, &[1], Fate::Delivered(8));
    has_fate(rt, tree, &[2], Fate::Delivered(8));
}

#[test]
fn frames_are_parked(rt: HostRuntime) {
    let mut tree = Tree::new(rt.alloc(), 0).expect(&rt, "memory");
    park_root(&rt, rt.alloc(), &mut tree);
    child_has_none(&rt, &mut tree);
    unpark_root(&rt, &mut tree);
}

fn park_root(rt: &impl Abort, alloc: Global, tree: &mut Tree)
    requires live { is_live (node_at tree.old.nodes 0) ≡ true }
    requires free { (node_at tree.old.nodes 0).parked ≡ None }
{
    let loaded = program(rt, alloc, "cilk int main(void) { int a; return a; }");
    tree.park(frame_of(rt, alloc, &loaded));
}

fn frame_of(rt: &impl Abort, alloc: Global, loaded: &Loaded) -> Frame
    ensures { result.id ≡ 0 }
{
    let main = loaded.body(0).expect(rt, "a body");
    assert_eq!(rt; main.params, 0);
    Frame::start(alloc, Id::new(0), main, &[]).expect(rt, "memory")
}

// The root has a frame. A child of the root has none, and none can be taken.
fn child_has_none(rt: &impl Abort, tree: &mut Tree) {
    assert!(rt; tree.parked(at(rt, tree, &[])).is_some());
    spawn(rt, tree, &[], Receiver::Nothing);
    let child = at(rt, tree, &[1]);
    assert!(rt; tree.parked(child).is_none());
    let none = tree.unpark(child).is_none();
    assert!(rt; none);
}

fn unpark_root(rt: &impl Abort, tree: &mut Tree) {
    let root = at(rt, tree, &[]);
    let back = tree.unpark(root).expect(rt, "a frame");
    let id = back.id();
    back.finish();
    equal(rt, id, Id::new(0));
    assert!(rt; tree.parked(at(rt, tree, &[])).is_none());
}

#[test]
fn paths_are_lists(rt: HostRuntime) {
    equal(&rt, Path::root(rt.alloc()).as_slice(), [].as_slice());
    let numbers = Vec::from_slice(rt.alloc(), &[3, 1]).expect(&rt, "memory");
    let path = Path::new(numbers);
    equal(&rt, path.as_slice(), [3, 1].as_slice());
    let copy = path.copy(rt.alloc()).expect(&rt, "memory");
    equal(&rt, copy.as_slice(), [3, 1].as_slice());
}

#[test]
fn laws_are_called() {
    trees_stay_trees();
    paths_are_names();
    paths_stay();
    ids_change();
    a_return_ends_and_sends();
}
