//! Carries out the plans by which an inlet or a C function starts; and how an activation goes on, and a body is left.

ghost use Rattle.std.specs.Prelude.{◌≡◌, ◌<◌, ℕ, true, None, IfErr, IfOk, OnErr};
ghost use Rattle.std.specs.Option.{option_copied};
ghost use Rattle.cilk_machine_plan.specs.model.Hands.{IsWorker, hand_of};
ghost use Rattle.cilk_machine_plan.specs.frame.Frames as frames;
ghost use Rattle.cilk_machine_plan.specs.frame.Frames.{depth, jumped, with_boundary, gone_to, left};
ghost use Rattle.cilk_machine_plan.specs.frame.Begins.{Takes, starts_with};
ghost use Rattle.cilk_machine_plan.specs.spawn.Nodes.{node_at, is_live};
ghost use Rattle.cilk_machine_plan.specs.agree.Outside as outside;
ghost use Rattle.cilk_machine_plan.specs.declared.plan.Plan.TheVariants as plans;
ghost use Rattle.cilk_machine_plan.specs.PartWords.{machine_of, outcome_of};
ghost use Rattle.cilk_machine_plan.specs.Ready.{CanEnter};
ghost use Rattle.cilk_machine_plan.specs.Carried.{Carried};
ghost use Rattle.cilk_machine_plan.specs.Spends.{LeavesTop};

use crate::acting::acted;
use crate::given::{Passage, Sender, Start};
use cilk_machine_plan::{Await, Body, Did, Done, Frame, Parts, Spent};

/// The top activation goes on with this action. An action of the procedure's own clears the boundary flag (`Frame::at_boundary`).
pub(crate) fn go_on(frame: Frame, to: u32) -> Frame
    ensures { result ≡ gone_to to frame }
{
    let boundary = frame.at_boundary() && 1 < frame.depth();
    resumed(frame, to, boundary)
}

pub(crate) fn resumed(mut frame: Frame, n: u32, boundary: bool) -> Frame
    ensures { result ≡ with_boundary boundary (jumped n frame) }
{
    frame.jump(n);
    frame.set_boundary(boundary);
    frame
}

/// The body above is left, and its activation is handed out.
pub(crate) fn leave(mut frame: Frame, spent: &mut Spent) -> Frame
    requires { 1 < depth frame }
    ensures frame { result ≡ left frame }
    ensures spent { LeavesTop frame spent.new }
{
    let activation = frame.withdraw();
    *spent = Spent::Activation(Some(activation));
    frame
}

// A body starts above the others.
fn enter(
    mut frame: Frame,
    body: Option<&Body>,
    arguments: &[i32],
    awaits: Option<Await>,
) -> Result<Frame, Frame>
    requires takes { Takes (option_copied body) arguments.now }
    requires room { depth frame < 256 }
    ensures entered { IfOk result (λ f. f ≡ frames.entered (starts_with (option_copied body.entry) arguments.now awaits) frame) }
    ensures back { IfErr result (λ f. f ≡ frame) }
{
    match body {
        None => unreachable!(),
        Some(body) => match frame.enter(body, arguments, awaits) {
            Ok(()) => Ok(frame),
            Err(_) => Err(frame),
        },
    }
}

// A body starts above, and its caller at what follows the call.
fn call(
    frame: Frame,
    body: Option<&Body>,
    arguments: &[i32],
    awaits: Option<Await>,
    to: u32,
) -> Result<Frame, Frame>
    requires takes { Takes (option_copied body) arguments.now }
    requires room { depth frame < 256 }
    ensures entered { IfOk result (λ f. f ≡ frames.entered (starts_with (option_copied body.entry) arguments.now awaits) (gone_to to frame)) }
    ensures back { IfErr result (λ f. f ≡ frame) }
{
    let n = frame.node(frame.depth() - 1);
    let boundary = frame.at_boundary();
    match enter(go_on(frame, to), body, arguments, awaits) {
        Ok(frame) => Ok(frame),
        Err(frame) => Err(resumed(frame, n, boundary)),
    }
}

/// The delivery that waits longest is taken: an inlet starts, whose body this is. Where memory has run out, the frame
/// comes back, and nothing has changed.
pub(crate) fn carry_enter(
    worker: u8,
    frame: Frame,
    sender: Sender,
    start: Start,
    choice: u64,
    parts: &mut Parts,
) -> Result<Done, Frame>
    requires worker { IsWorker parts.old.hands worker }
    requires empty { hand_of parts.old.hands worker ≡ None }
    requires live { is_live (node_at parts.old.tree.nodes frame.id) ≡ true }
    requires enters { CanEnter frame (option_copied start.body) start.arguments }
    ensures done { IfOk result (λ done. Carried choice (machine_of parts.old outside.running) worker frame (option_copied start.entry.body)
        (plans.Enter sender.child sender.n start.entry.number start.entry.arguments) (machine_of parts.new (outcome_of done.outcome)) done.did) }
    ensures back { IfErr result (λ f. f ≡ frame) }
    ensures same { OnErr result (machine_of parts.new outside.running ≡ machine_of parts.old outside.running) }
    ensures living { OnErr result (parts.new.tree.living ≡ parts.old.tree.living) }
{
    let id = frame.id();
    let Start {
        number: _,
        body,
        arguments,
    } = start;
    let frame = enter(frame, body, arguments.as_slice(), None)?;
    let _taken = parts.tree.take_delivery(id, choice);
    parts.hands.give(worker, frame);
    Ok(Done::running(Did::Delivered(sender.child, sender.n)))
}

/// A C function starts, whose body this is. Where memory has run out, the frame comes back, and nothing has changed.
pub(crate) fn carry_call(
    worker: u8,
    frame: Frame,
    passage: Passage,
    awaits: Option<Await>,
    start: Start,
    parts: &mut Parts,
) -> Result<Done, Frame>
    requires worker { IsWorker parts.old.hands worker }
    requires empty { hand_of parts.old.hands worker ≡ None }
    requires enters { CanEnter frame (option_copied start.body) start.arguments }
    ensures done { IfOk result (λ done. (choice : ℕ) → Carried choice (machine_of parts.old outside.running) worker frame (option_copied start.entry.body)
        (plans.Call passage.n awaits start.entry.number start.entry.arguments passage.to)
        (machine_of parts.new (outcome_of done.outcome)) done.did) }
    ensures back { IfErr result (λ f. f ≡ frame) }
    ensures same { OnErr result (machine_of parts.new outside.running ≡ machine_of parts.old outside.running) }
    ensures living { OnErr result (parts.new.tree.living ≡ parts.old.tree.living) }
{
    let Start {
        number: _,
        body,
        arguments,
    } = start;
    let frame = call(frame, body, arguments.as_slice(), awaits, passage.to)?;
    Ok(acted(worker, frame, passage.n, &mut parts.hands))
}
