//! Trees of instances that grow, and trees that are made of images.

ghost use Rattle.std.specs.Prelude.{◌≡◌, ◌<◌, length, true};
ghost use Rattle.cilk_spawn.specs.Nodes.{node_at, is_live};

use super::{page, tell_refused};
use crate::equal::equal;
use cilk_spawn::{Arguments, Delivery, Fate, Id, LivingImage, Path, Receiver, Tree, TreeImage};
use std::alloc::Global;
use std::process::Abort;

// The live instance with this path.
pub fn at(rt: &(impl Abort + Print), tree: &Tree, path: &[u32]) -> Id
    ensures there { result < length tree.now.nodes }
    ensures live { is_live (node_at tree.now.nodes result) ≡ true }
{
    let id = tree.find(path).expect(rt, "an instance");
    assert!(rt; tree.fate(id) == Fate::Live);
    id
}

// All that a tree tells.
pub fn told(rt: &(impl Abort + Print), alloc: Global, tree: &Tree) -> String {
    let mut text = page(rt, alloc);
    let next = tree.next_id().number();
    let live = tree.live();
    write!(text, "{next} {live}\n").expect(rt, "room");
    for i in 0..next {
        if let Some(id) = tree.nth(i) {
            put_place(rt, &mut text, tree, id);
            put_state(rt, &mut text, tree, id);
        }
    }
    text
}

fn path_of(rt: &(impl Abort + Print), tree: &Tree, id: Id) -> Path
    requires { id < length tree.now.nodes }
{
    again!(rt; tree.path_of(id), _)
}

// Where an instance stands among the others.
fn put_place(rt: &(impl Abort + Print), text: &mut String, tree: &Tree, id: Id)
    requires { id < length tree.now.nodes }
{
    let path = path_of(rt, tree, id);
    equal(rt, tree.find(path.as_slice()), Some(id));
    let parent = tree.parent(id);
    let procedure = tree.procedure(id);
    let children = tree.children(id);
    let has_live = tree.has_live_child(id);
    write!(
        text,
        "{path:?} {parent:?} {procedure} {children} {has_live}\n"
    )
    .expect(rt, "room");
}

fn put_state(rt: &(impl Abort + Print), text: &mut String, tree: &Tree, id: Id)
    requires { id < length tree.now.nodes }
{
    let fate = tree.fate(id);
    let aborted = tree.is_aborted(id);
    let synched = tree.is_synched(id);
    let parked = tree.parked(id).map(|frame| frame.id());
    let waiting = tree.waiting(id);
    let first = tree.first_delivery(id);
    write!(
        text,
        "{fate:?} {aborted} {synched} {parked:?} {waiting} {first:?}\n"
    )
    .expect(rt, "room");
    if fate == Fate::Live {
        let receiver = tree.receiver(id);
        write!(text, "{receiver:?}\n").expect(rt, "room");
    }
}

// `i(spawn f(), 7, -8);` by action n.
fn calls(rt: &(impl Abort + Print), alloc: Global, n: u32) -> Receiver {
    let values = again!(rt; Vec::from_slice(alloc, &[7, -8]), _);
    Receiver::Call {
        n,
        args: Arguments::new(values),
    }
}

pub fn spawns(rt: &(impl Abort + Print), alloc: Global, tree: &mut Tree, path: &[u32], n: u32) {
    let parent = at(rt, tree, path);
    assert!(rt; tree.children(parent) < 9);
    let before = told(rt, alloc, tree);
    let next = tree.next_id();
    let child = again!(
        rt;
        tree.add_child(parent, 5, calls(rt, alloc, n)),
        _,
        equal(rt, told(rt, alloc, tree).as_str(), before.as_str())
    );
    equal(rt, child, next);
}

pub fn delivers(
    rt: &(impl Abort + Print),
    alloc: Global,
    tree: &mut Tree,
    path: &[u32],
    value: i32,
) {
    let child = at(rt, tree, path);
    assert!(rt; matches!(tree.receiver(child), Receiver::Call { .. }));
    let before = told(rt, alloc, tree);
    again!(
        rt;
        tree.deliver(child, value),
        _,
        equal(rt, told(rt, alloc, tree).as_str(), before.as_str())
    );
}

fn copy_of(rt: &(impl Abort + Print), delivery: &Delivery) -> Delivery {
    again!(rt; delivery.copy(), _)
}

fn delivery_told(rt: &(impl Abort + Print), alloc: Global, delivery: &Delivery) -> String {
    let mut text = page(rt, alloc);
    write!(text, "{delivery:?}").expect(rt, "room");
    text
}

// What waits longest for the root is copied.
fn first_is_copied(rt: &(impl Abort + Print), alloc: Global, tree: &Tree) {
    let first = tree.first_delivery(at(rt, tree, &[]));
    let first = first.expect(rt, "a delivery");
    let copy = copy_of(rt, first);
    let text = delivery_told(rt, alloc, &copy);
    equal(rt, text.as_str(), delivery_told(rt, alloc, first).as_str());
}

fn path_copied(rt: &(impl Abort + Print), alloc: Global, path: &Path) -> Path {
    again!(rt; path.copy(alloc), _)
}

fn path_is_copied(rt: &(impl Abort + Print), alloc: Global, tree: &Tree, path: &[u32]) {
    let told = path_of(rt, tree, at(rt, tree, path));
    let copy = path_copied(rt, alloc, &told);
    equal(rt, copy.as_slice(), path);
}

fn image_of(rt: &(impl Abort + Print), tree: &Tree) -> TreeImage
    ensures { result ≡ tree.now }
{
    again!(rt; tree.image(), _)
}

fn restored(rt: &(impl Abort + Print), image: &TreeImage) -> Tree
    ensures { result ≡ image.now }
{
    again!(rt; Tree::restore(image), _)
}

// A tree that is the same, and has no room to spare.
pub fn tight(rt: &(impl Abort + Print), tree: &Tree) -> Tree
    ensures { result ≡ tree.now }
{
    let image = image_of(rt, tree);
    restored(rt, &image)
}

fn living_image_of(rt: &(impl Abort + Print), tree: &Tree) -> LivingImage {
    again!(rt; tree.living_image(), _)
}

// A tree that is made of an image tells the same.
fn is_made_anew(rt: &(impl Abort + Print), alloc: Global, tree: &Tree) {
    let copy = tight(rt, tree);
    let whole = told(rt, alloc, tree);
    equal(rt, told(rt, alloc, &copy).as_str(), whole.as_str());
}

pub fn opened(rt: &(impl Abort + Print), alloc: Global) -> Tree {
    again!(rt; Tree::new(alloc, 4), _)
}

#[test]
fn a_tree_grows(rt: HostRuntime) {
    let mut tree = opened(&rt, rt.alloc());
    for n in 1..6 {
        spawns(&rt, rt.alloc(), &mut tree, &[], n);
        spawns(&rt, rt.alloc(), &mut tree, &[n], 9);
    }
    for n in 1..6 {
        delivers(&rt, rt.alloc(), &mut tree, &[n], 7);
    }
    first_is_copied(&rt, rt.alloc(), &tree);
    path_is_copied(&rt, rt.alloc(), &tree, &[5, 1]);
    is_made_anew(&rt, rt.alloc(), &tree);
    drop(living_image_of(&rt, &tree));
    equal(&rt, tree.live(), 11);
    equal(&rt, tree.waiting(at(&rt, &tree, &[])), 5);
}
