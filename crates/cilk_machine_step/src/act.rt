//! The plan of a step that acts the head of its instance.

ghost use Rattle.std.specs.Prelude.{◌≡◌, ◌<◌, ◌+◌, ◌&&◌, not, nat_lt, nat_le, length, slice_index_or, Ok, IfOk};
ghost use Rattle.cilk_machine_plan.specs.nodes.Areas.{sizes_of};
ghost use Rattle.cilk_machine_plan.specs.frame.Frames.{depth};
ghost use Rattle.cilk_machine_plan.specs.spawn.Nodes.{is_synched};
ghost use Rattle.cilk_machine_plan.specs.effects.Fits.{FitsAct};
ghost use Rattle.cilk_machine_plan.specs.agree.Locks.{lock_turn_among};
ghost use Rattle.cilk_machine_plan.specs.StepInput.{id_of, cells_in, holds_lock};
ghost use Rattle.cilk_machine_step.specs.Scenes.{input_of};
ghost use Rattle.cilk_machine_plan.specs.Made.{if_room, next_of, has_room, at_boundary, waits_here, ends_thread, acted, by_effect, lock_turned_to};

use crate::leaving::{given, is_function_body};
use crate::scene::Scene;
use cilk_load::{Action, LockAction, Memory, Node, Trap};
use cilk_machine_plan::{
    Arguments, Await, Bytes, Effect, Frame, Lock, Plan, Receiver, TrapKind, effect_of,
    is_between_threads, leaves,
};
use std::alloc::Global;

/// The most instances that may live.
const MOST_INSTANCES: usize = 65_536;
/// The most bytes that may be printed.
const MOST_BYTES: usize = 1_048_576;

/// The plan by which the instance acts the node of its top activation, whose number is n.
#[tactic(auto, using(crate::proofs::Ways::acts_by))]
pub(crate) fn act(alloc: Global, scene: &Scene, n: u32, node: &Node) -> Result<Plan, Memory>
    requires there { id_of (input_of scene.now) < length (input_of scene.now).nodes }
    requires fits { FitsAct (sizes_of (cells_in (input_of scene.now))) node.now.action }
    ensures { IfOk result (λ plan. plan ≡ acted (input_of scene.now) n node.now) }
{
    if ends_with_lock(scene, node) {
        return Ok(trap(TrapKind::HeldLock, n));
    }
    if parks_here(scene, node) {
        return Ok(Plan::Park);
    }
    let outcome = effect_of(alloc, &scene.lent(), n, &node.action)?;
    Ok(by_outcome(scene, n, node, outcome))
}

// Whether a Cilk thread or an inlet ends there, and holds a lock.
fn ends_with_lock(scene: &Scene, node: &Node) -> bool
    ensures { result ≡ ends_thread (input_of scene.now) node.now && holds_lock (input_of scene.now) }
{
    ends_thread(scene, node) && scene.holds_lock()
}

// Whether the procedure waits for its children there, and has something to wait for.
fn parks_here(scene: &Scene, node: &Node) -> bool
    requires { id_of (input_of scene.now) < length (input_of scene.now).nodes }
    ensures { result ≡ waits_here (input_of scene.now) node.now && not (is_synched (input_of scene.now).nodes (id_of (input_of scene.now))) }
{
    waits_here(scene, node) && !scene.tree.is_synched(scene.frame.id())
}

/// Whether the procedure is between two of its threads, where an inlet may run (Cilk 5.4 manual, `inlet`).
pub(crate) fn at_boundary(scene: &Scene, node: &Node) -> bool
    ensures { result ≡ at_boundary (input_of scene.now) node.now }
{
    is_between_threads(scene.frame, &node.action)
}

// What the effect of an action comes to, if it has one.
fn by_outcome(scene: &Scene, n: u32, node: &Node, outcome: Result<Effect, Trap>) -> Plan
    requires { id_of (input_of scene.now) < length (input_of scene.now).nodes }
    ensures { result ≡ by_effect (input_of scene.now) n node.now outcome }
{
    match outcome {
        Err(why) => trap(TrapKind::Value(why), n),
        Ok(effect) => by_effect(scene, n, node, effect),
    }
}

fn by_effect(scene: &Scene, n: u32, node: &Node, effect: Effect) -> Plan
    requires { id_of (input_of scene.now) < length (input_of scene.now).nodes }
    ensures { result ≡ by_effect (input_of scene.now) n node.now (Ok effect) }
{
    let to = next_of(node, 1);
    match effect {
        Effect::Writes(reached, value) => Plan::Write {
            n,
            reached,
            value,
            to,
        },
        Effect::Answers(answer) => Plan::Go {
            n,
            to: next_of(node, answer),
        },
        Effect::Enters(awaits, callee, arguments) => {
            called(scene, n, awaits, callee, arguments, to)
        }
        Effect::Gives(value) => given(scene, n, node, value),
        Effect::Starts(receiver, callee, arguments) => {
            spawned(scene, n, receiver, callee, arguments, to)
        }
        Effect::Prints(bytes) => printed(scene, n, bytes, to),
        Effect::TurnsLock(what, lock) => lock_turned(scene, n, what, lock, to),
        Effect::Marks => Plan::Abort { n, to },
    }
}

// A C function starts, if not too many calls are under way.
fn called(
    scene: &Scene,
    n: u32,
    awaits: Option<Await>,
    callee: u32,
    arguments: Arguments,
    to: u32,
) -> Plan
    ensures { result ≡ if_room (nat_lt (depth (input_of scene.now).frame) 256) TrapKind.Depth n (Plan.Call n awaits callee arguments to) }
{
    if scene.frame.depth() < Frame::DEPTH {
        Plan::Call {
            n,
            awaits,
            callee,
            arguments,
            to,
        }
    } else {
        trap(TrapKind::Depth, n)
    }
}

// A child starts, if there is room for it.
fn spawned(
    scene: &Scene,
    n: u32,
    receiver: Receiver,
    callee: u32,
    arguments: Arguments,
    to: u32,
) -> Plan
    requires { id_of (input_of scene.now) < length (input_of scene.now).nodes }
    ensures { result ≡ if_room (has_room (input_of scene.now)) TrapKind.Instances n (Plan.Spawn n receiver callee arguments to) }
{
    if has_room(scene) {
        Plan::Spawn {
            n,
            receiver,
            callee,
            arguments,
            to,
        }
    } else {
        trap(TrapKind::Instances, n)
    }
}

// Bytes are printed, if so many still may be.
fn printed(scene: &Scene, n: u32, bytes: Bytes, to: u32) -> Plan
    ensures { result ≡ if_room (nat_le ((input_of scene.now).printed + length bytes) 1048576) TrapKind.Output n (Plan.Print n bytes to) }
{
    if fits_output(scene.output.len(), bytes.as_slice()) {
        Plan::Print { n, bytes, to }
    } else {
        trap(TrapKind::Output, n)
    }
}

fn trap(kind: TrapKind, n: u32) -> Plan
    ensures { result ≡ Plan.Trap kind n }
{
    Plan::Trap { kind, n }
}

/// The action that comes next, where a test has this value.
#[inline(always)]
pub(crate) fn next_of(node: &Node, value: i32) -> u32
    ensures { result ≡ next_of node.now value }
{
    node.successor(value).unwrap_or(0)
}

// Whether there may be one more child: few enough instances live, and the parent has spawned few enough.
fn has_room(scene: &Scene) -> bool
    requires { id_of (input_of scene.now) < length (input_of scene.now).nodes }
    ensures { result ≡ has_room (input_of scene.now) }
{
    scene.tree.live() < MOST_INSTANCES && scene.tree.children(scene.frame.id()) < u32::MAX
}

// Whether so many bytes may still be printed.
fn fits_output(printed: usize, bytes: &[u8]) -> bool
    ensures { result ≡ nat_le (printed + length bytes.now) 1048576 }
{
    bytes.len() <= MOST_BYTES && printed <= MOST_BYTES - bytes.len()
}

// A lock is turned, or that is not allowed, or it has to wait (Cilk 5.4 manual, locks).
fn lock_turned(scene: &Scene, n: u32, what: LockAction, lock: u32, to: u32) -> Plan
    ensures { result ≡ lock_turned_to n to lock (lock_turn_among (input_of scene.now).locks (id_of (input_of scene.now)) what lock) }
{
    let id = scene.frame.id();
    let now = lock_at(scene.locks.as_slice(), lock);
    match what {
        LockAction::Init => match now {
            Lock::Unset | Lock::Free => turn_lock(n, lock, Lock::Free, to),
            Lock::Held(_) => trap(TrapKind::Lock, n),
        },
        LockAction::Lock => match now {
            Lock::Unset => trap(TrapKind::Lock, n),
            Lock::Free => turn_lock(n, lock, Lock::Held(id), to),
            Lock::Held(by) => {
                if by == id {
                    trap(TrapKind::Lock, n)
                } else {
                    Plan::Wait
                }
            }
        },
        LockAction::Unlock => match now {
            Lock::Unset | Lock::Free => trap(TrapKind::Lock, n),
            Lock::Held(by) => {
                if by == id {
                    turn_lock(n, lock, Lock::Free, to)
                } else {
                    trap(TrapKind::Lock, n)
                }
            }
        },
    }
}

fn turn_lock(n: u32, lock: u32, now: Lock, to: u32) -> Plan
    ensures { result ≡ Plan.TurnLock n lock now to }
{
    Plan::TurnLock { n, lock, now, to }
}

pub(crate) fn lock_at(locks: &[Lock], lock: u32) -> Lock
    ensures { result ≡ slice_index_or locks.now lock Lock.Unset }
{
    match locks.get(lock as usize) {
        None => Lock::Unset,
        Some(lock) => *lock,
    }
}

// Whether the procedure may park there: it waits for its children, if there is something to wait for (Cilk 5.4 manual, `sync`, `return`).
fn waits_here(scene: &Scene, node: &Node) -> bool
    ensures { result ≡ waits_here (input_of scene.now) node.now }
{
    scene.is_outer() && (matches!(&node.action, Action::Sync) || leaves(&node.action))
}

/// Whether a Cilk thread or an inlet ends there.
pub(crate) fn ends_thread(scene: &Scene, node: &Node) -> bool
    ensures { result ≡ ends_thread (input_of scene.now) node.now }
{
    match &node.action {
        Action::Sync | Action::Spawn(..) => true,
        action => leaves(action)
            && (scene.is_outer() || !is_function_body(scene.loaded, node.body)),
    }
}
