//! Carries out the plan of a spawn: a child starts.

ghost use Rattle.std.specs.Prelude.{◌≡◌, ◌+◌, ◌<◌, ◌^◌, ◌∷◌, [], ℕ, length, true, None, IfErr, IfOk, IfSome, OnErr, OnOk};
ghost use Rattle.std.specs.Option.{option_copied};
ghost use Rattle.cilk_machine_plan.specs.model.Hands.{IsWorker, hand_of, pushed_by};
ghost use Rattle.cilk_machine_plan.specs.frame.Frames as frames;
ghost use Rattle.cilk_machine_plan.specs.spawn.Nodes.{node_at, is_live, with_child};
ghost use Rattle.cilk_machine_plan.specs.frame.Begins.{Takes};
ghost use Rattle.cilk_machine_plan.specs.agree.Actions.{past_spawn};
ghost use Rattle.cilk_machine_plan.specs.agree.Outside as outside;
ghost use Rattle.cilk_machine_plan.specs.declared.plan.Plan.TheVariants as plans;
ghost use Rattle.cilk_machine_plan.specs.PartWords.{machine_of, outcome_of};
ghost use Rattle.cilk_machine_plan.specs.Ready.{CanSpawn};
ghost use Rattle.cilk_machine_plan.specs.Carried.{Carried, started_as};

use crate::entering::resumed;
use crate::given::{Passage, Start};
use cilk_machine_plan::{Body, Did, Done, Frame, Hands, Id, Parts, Receiver, Tree};
use std::alloc::Global;

// A child that starts: its procedure, what takes its value, and its frame.
struct Child {
    procedure: u32,
    receiver: Receiver,
    frame: Frame,
}

/// A child starts, whose body this is. Where memory has run out, the parent's frame comes back, and nothing has changed.
pub(crate) fn carry_spawn(
    worker: u8,
    frame: Frame,
    passage: Passage,
    receiver: Receiver,
    start: Start,
    parts: &mut Parts,
) -> Result<Done, Frame>
    requires worker { IsWorker parts.old.hands worker }
    requires empty { hand_of parts.old.hands worker ≡ None }
    requires live { is_live (node_at parts.old.tree.nodes frame.id) ≡ true }
    requires spawns { CanSpawn parts.old.tree.nodes frame.id (option_copied start.body) start.arguments }
    ensures done { IfOk result (λ done. (choice : ℕ) → Carried choice (machine_of parts.old outside.running) worker frame (option_copied start.entry.body)
        (plans.Spawn passage.n receiver start.entry.number start.entry.arguments passage.to)
        (machine_of parts.new (outcome_of done.outcome)) done.did) }
    ensures back { IfErr result (λ f. f ≡ frame) }
    ensures same { OnErr result (machine_of parts.new outside.running ≡ machine_of parts.old outside.running) }
    ensures living { OnErr result (parts.new.tree.living ≡ parts.old.tree.living) }
{
    let Start {
        number,
        body,
        arguments,
    } = start;
    let alloc = *parts.globals.allocator();
    match child_frame(alloc, parts.tree.next_id(), body, arguments.as_slice()) {
        None => Err(frame),
        Some(young) => {
            let child = Child {
                procedure: number,
                receiver,
                frame: young,
            };
            let id = hand_on(
                worker,
                frame,
                passage.to,
                child,
                &mut parts.tree,
                &mut parts.hands,
            )?;
            Ok(Done::running(Did::Spawned(id, passage.n)))
        }
    }
}

// The frame of a child at its start.
fn child_frame(alloc: Global, id: Id, body: Option<&Body>, arguments: &[i32]) -> Option<Frame>
    requires { Takes (option_copied body) arguments.now }
    ensures { IfSome result (λ f. f ≡ started_as (option_copied body.entry) id arguments.now) }
{
    match body {
        None => unreachable!(),
        Some(body) => match Frame::start(alloc, id, body, arguments) {
            Ok(frame) => Some(frame),
            Err(_) => None,
        },
    }
}

// The parent goes to the bottom of the worker's deque, past its spawn, and the child to its hand.
// Where memory has run out, the parent's frame comes back, and nothing has changed.
fn hand_on(
    worker: u8,
    frame: Frame,
    to: u32,
    child: Child,
    tree: &mut Tree,
    hands: &mut Hands,
) -> Result<Id, Frame>
    requires worker { IsWorker hands.old worker }
    requires empty { hand_of hands.old worker ≡ None }
    requires live { is_live (node_at tree.old.nodes frame.id) ≡ true }
    requires room { (node_at tree.old.nodes frame.id).children + 1 < 2 ^ 32 }
    ensures id { IfOk result (λ id. id ≡ length tree.old.nodes) }
    ensures tree { OnOk result (tree.new.nodes ≡ with_child tree.old.nodes frame.id child.procedure child.receiver) }
    ensures hands { OnOk result (hands.new ≡ pushed_by hands.old worker (past_spawn to frame) child.frame) }
    ensures back { IfErr result (λ f. f ≡ frame) }
    ensures same_tree { OnErr result (tree.new ≡ tree.old) }
    ensures same_hands { OnErr result (hands.new ≡ hands.old) }
{
    let id = frame.id();
    let n = frame.node(frame.depth() - 1);
    let boundary = frame.at_boundary();
    let Child {
        procedure,
        receiver,
        frame: young,
    } = child;
    let parent = resumed(frame, to, true);
    if let Err(parent) = hands.push_bottom(worker, parent) {
        return Err(resumed(parent, n, boundary));
    }
    match tree.add_child(id, procedure, receiver) {
        Ok(child) => {
            hands.give(worker, young);
            Ok(child)
        }
        Err(_) => match hands.pop_bottom(worker) {
            None => unreachable!(),
            Some(parent) => Err(resumed(parent, n, boundary)),
        },
    }
}
