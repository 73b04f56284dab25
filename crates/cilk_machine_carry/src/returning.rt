//! Carries out the plans by which an instance is no more: it returns a value, or was aborted.

ghost use Rattle.std.specs.Prelude.{◌≡◌, true, false, Option, None, Some, ℕ, IfErr, IfOk, OnErr, OnOk};
ghost use Rattle.cilk_machine_plan.specs.model.Hands.{IsWorker, hand_of};
ghost use Rattle.cilk_machine_plan.specs.nodes.declared.body.Body.{Body};
ghost use Rattle.cilk_machine_plan.specs.spawn.declared.fate.Fate.TheVariants as fates;
ghost use Rattle.cilk_machine_plan.specs.spawn.Nodes.{node_at, is_live, has_live_child, fate_at, ended};
ghost use Rattle.cilk_machine_plan.specs.agree.Laws.{sent};
ghost use Rattle.cilk_machine_plan.specs.agree.Outside as outside;
ghost use Rattle.cilk_machine_plan.specs.declared.plan.Plan.TheVariants as plans;
ghost use Rattle.cilk_machine_plan.specs.PartWords.{machine_of, outcome_of};
ghost use Rattle.cilk_machine_plan.specs.Carried.{Carried, nodes_awake, places_awake, awake_in, value_outcome};
ghost use Rattle.cilk_machine_plan.specs.Ready.{CanEnd};
ghost use Rattle.cilk_machine_plan.specs.Spends.{EndsIn};

use crate::given::End;
use crate::releasing::release;
use cilk_machine_plan::{
    Did, Done, Ending, Frame, Hands, Id, Memory, Outcome, Parts, Receiver, Spent, Tree,
};

/// An instance that was aborted is no more, and its locks are free.
pub(crate) fn carry_end(worker: u8, frame: Frame, choice: u64, parts: &mut Parts) -> Done
    requires worker { IsWorker parts.old.hands worker }
    requires empty { hand_of parts.old.hands worker ≡ None }
    requires end { CanEnd parts.old.tree.nodes frame.id (node_at parts.old.tree.nodes frame.id).parent (fates.Aborted choice) }
    ensures carried { (body : Option Body) → Carried choice (machine_of parts.old outside.running) worker frame body
        plans.End (machine_of parts.new (outcome_of result.outcome)) result.did }
    ensures spent { EndsIn parts.old.tree.nodes frame parts.new.spent }
{
    let id = frame.id();
    let parent = parts.tree.parent(id);
    release(&mut parts.locks, id);
    let aborted = End {
        ending: Ending::Aborted,
        choice,
    };
    parts.spent = end(
        worker,
        frame,
        parent,
        aborted,
        &mut parts.tree,
        &mut parts.hands,
    );
    Done::running(Did::Ended(id))
}

/// An instance gives a value, and is no more. Where memory has run out, the frame comes back, and nothing has changed.
pub(crate) fn carry_return(
    worker: u8,
    frame: Frame,
    n: u32,
    value: i32,
    choice: u64,
    parts: &mut Parts,
) -> Result<Done, Frame>
    requires worker { IsWorker parts.old.hands worker }
    requires empty { hand_of parts.old.hands worker ≡ None }
    requires live { is_live (node_at parts.old.tree.nodes frame.id) ≡ true }
    requires end { CanEnd (sent parts.old.tree.nodes frame.id value) frame.id (node_at parts.old.tree.nodes frame.id).parent fates.Returned }
    ensures done { IfOk result (λ done. (body : Option Body) → Carried choice (machine_of parts.old outside.running) worker frame body
        (plans.Return n value) (machine_of parts.new (outcome_of done.outcome)) done.did) }
    ensures spent { OnOk result (EndsIn (sent parts.old.tree.nodes frame.id value) frame parts.new.spent) }
    ensures back { IfErr result (λ f. f ≡ frame) }
    ensures same { OnErr result (machine_of parts.new outside.running ≡ machine_of parts.old outside.running) }
    ensures living { OnErr result (parts.new.tree.living ≡ parts.old.tree.living) }
{
    let id = frame.id();
    let (outcome, spent) = give_value(
        worker,
        frame,
        value,
        choice,
        &mut parts.tree,
        &mut parts.hands,
    )?;
    parts.spent = spent;
    Ok(Done {
        outcome,
        did: Did::Returned(id, n),
    })
}

// The instance of a frame ends with a value. That of the root is the program's; that of a child
// waits for the parent, where something takes it, and a parked parent that can go on comes to the
// worker's hand. Where memory has run out, the frame comes back, and nothing has changed.
fn give_value(
    worker: u8,
    frame: Frame,
    value: i32,
    choice: u64,
    tree: &mut Tree,
    hands: &mut Hands,
) -> Result<(Outcome, Spent), Frame>
    requires worker { IsWorker hands.old worker }
    requires empty { hand_of hands.old worker ≡ None }
    requires live { is_live (node_at tree.old.nodes frame.id) ≡ true }
    requires end { CanEnd (sent tree.old.nodes frame.id value) frame.id (node_at tree.old.nodes frame.id).parent fates.Returned }
    ensures outcome { IfOk result (λ given. given.0 ≡ value_outcome value (node_at tree.old.nodes frame.id).parent) }
    ensures spent { IfOk result (λ given. EndsIn (sent tree.old.nodes frame.id value) frame given.1) }
    ensures tree { OnOk result (tree.new.nodes
        ≡ nodes_awake (ended (sent tree.old.nodes frame.id value) frame.id fates.Returned) (node_at tree.old.nodes frame.id).parent) }
    ensures hands { OnOk result (hands.new
        ≡ places_awake hands.old worker
        (awake_in (ended (sent tree.old.nodes frame.id value) frame.id fates.Returned) (node_at tree.old.nodes frame.id).parent)) }
    ensures back { IfErr result (λ f. f ≡ frame) }
    ensures same_tree { OnErr result (tree.new ≡ tree.old) }
    ensures same_hands { OnErr result (hands.new ≡ hands.old) }
{
    let id = frame.id();
    let parent = tree.parent(id);
    if send(tree, id, value).is_err() {
        return Err(frame);
    }
    let returned = End {
        ending: Ending::Returned,
        choice,
    };
    let spent = end(worker, frame, parent, returned, tree, hands);
    if parent.is_none() {
        Ok((Outcome::Finished(value), spent))
    } else {
        Ok((Outcome::Running, spent))
    }
}

// The instance of a frame ends, and a parked parent that can go on comes to the worker's hand. Answers what is left of the instance.
fn end(
    worker: u8,
    frame: Frame,
    parent: Option<Id>,
    end: End,
    tree: &mut Tree,
    hands: &mut Hands,
) -> Spent
    requires worker { IsWorker hands.old worker }
    requires empty { hand_of hands.old worker ≡ None }
    requires end { CanEnd tree.old.nodes frame.id parent (fate_at end.ending end.choice) }
    ensures tree { tree.new.nodes ≡ nodes_awake (ended tree.old.nodes frame.id (fate_at end.ending end.choice)) parent }
    ensures hands { hands.new ≡ places_awake hands.old worker (awake_in (ended tree.old.nodes frame.id (fate_at end.ending end.choice)) parent) }
    ensures spent { EndsIn tree.old.nodes frame result }
{
    let remains = tree.retire(frame.id(), end.ending, end.choice);
    if let Some(parent) = parent {
        wake(worker, parent, tree, hands);
    }
    Spent::Instance(frame, remains)
}

// The value waits for the parent, if anything takes it; an aborted child delivers nothing.
fn send(tree: &mut Tree, id: Id, value: i32) -> Result<(), Memory>
    requires { is_live (node_at tree.old.nodes id) ≡ true }
    ensures ok { OnOk result (tree.new.nodes ≡ sent tree.old.nodes id value) }
    ensures err { OnErr result (tree.new ≡ tree.old) }
{
    if tree.is_aborted(id) {
        return Ok(());
    }
    match tree.receiver(id) {
        Receiver::Nothing => Ok(()),
        Receiver::Place { .. } => tree.deliver(id, value),
        Receiver::Call { .. } => tree.deliver(id, value),
    }
}

// A parked parent can go on where no child of it lives, or it is not aborted and a delivery waits.
fn wake(worker: u8, parent: Id, tree: &mut Tree, hands: &mut Hands)
    requires worker { IsWorker hands.old worker }
    requires empty { hand_of hands.old worker ≡ None }
    requires live { is_live (node_at tree.old.nodes parent) ≡ true }
    ensures tree { tree.new.nodes ≡ nodes_awake tree.old.nodes (Some parent) }
    ensures hands { hands.new ≡ places_awake hands.old worker (awake_in tree.old.nodes (Some parent)) }
{
    if tree.has_live_child(parent) && (tree.is_aborted(parent) || tree.waiting(parent) == 0) {
        return;
    }
    if let Some(frame) = tree.unpark(parent) {
        hands.give(worker, frame);
    }
}
