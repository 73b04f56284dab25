//! `carry_out`: carries out a plan of any kind.

ghost use Rattle.std.specs.Prelude.{◌≡◌, None, IfErr, IfOk, OnErr, OnOk};
ghost use Rattle.std.specs.Option.{option_copied};
ghost use Rattle.cilk_machine_plan.specs.model.Hands.{IsWorker, hand_of};
ghost use Rattle.cilk_machine_plan.specs.agree.Outside as outside;
ghost use Rattle.cilk_machine_plan.specs.PartWords.{machine_of, outcome_of};
ghost use Rattle.cilk_machine_plan.specs.Ready.{Ready};
ghost use Rattle.cilk_machine_plan.specs.Carried.{Carried};
ghost use Rattle.cilk_machine_carry.specs.Carries.{CanCarry, Carries, Becomes};
ghost use Rattle.cilk_machine_plan.specs.Spends.{Spends, SpendsIn};

use crate::acting::{acted, carry_abort, carry_print, carry_trap};
use crate::entering::{carry_call, carry_enter, go_on, leave};
use crate::given::{Passage, Sender, Start};
use crate::releasing::carry_lock_turn;
use crate::returning::{carry_end, carry_return};
use crate::starting::carry_spawn;
use crate::writing::{carry_answer, carry_take, carry_write};
use cilk_machine_plan::{Body, Did, Done, Frame, NoMemory, Parts, Plan, Writing};

/// Carries out the plan of the frame in the worker's hand, at this choice. The body is the one of the procedure, the
/// C function or the inlet that the plan starts. Where memory has run out, nothing has changed.
#[inline(always)]
pub fn carry_out(
    worker: u8,
    plan: Plan,
    body: Option<&Body>,
    choice: u64,
    parts: &mut Parts,
) -> Result<Done, NoMemory>
    requires can_carry { CanCarry parts.old worker (option_copied body) plan }
    ensures done { IfOk result (λ done. Carries choice parts.old worker (option_copied body.entry) plan parts.new done) }
    ensures becomes { IfOk result (λ done. Becomes choice parts.old worker (option_copied body.entry) plan parts.new done) }
    ensures spent { OnOk result (SpendsIn parts.old worker plan parts.new.spent) }
    ensures same { OnErr result (machine_of parts.new outside.running ≡ machine_of parts.old outside.running) }
    ensures living { OnErr result (parts.new.tree.living ≡ parts.old.tree.living) }
{
    match parts.hands.take(worker) {
        None => unreachable!(),
        Some(frame) => match carry(worker, frame, plan, body, choice, parts) {
            Ok(done) => Ok(done),
            Err(frame) => {
                parts.hands.give(worker, frame);
                Err(NoMemory)
            }
        },
    }
}

// The frame was taken out of the hand. Where memory has run out, it comes back.
fn carry(
    worker: u8,
    frame: Frame,
    plan: Plan,
    body: Option<&Body>,
    choice: u64,
    parts: &mut Parts,
) -> Result<Done, Frame>
    requires worker { IsWorker parts.old.hands worker }
    requires empty { hand_of parts.old.hands worker ≡ None }
    requires ready { Ready choice parts.old.tree.nodes parts.old.globals.items frame (option_copied body) plan }
    ensures done { IfOk result (λ done. Carried choice (machine_of parts.old outside.running) worker frame (option_copied body.entry) plan
        (machine_of parts.new (outcome_of done.outcome)) done.did) }
    ensures spent { OnOk result (Spends parts.old.tree.nodes frame plan parts.new.spent) }
    ensures back { IfErr result (λ f. f ≡ frame) }
    ensures same { OnErr result (machine_of parts.new outside.running ≡ machine_of parts.old outside.running) }
    ensures living { OnErr result (parts.new.tree.living ≡ parts.old.tree.living) }
{
    match plan {
        Plan::Wait => unreachable!(),
        Plan::Park => {
            parts.tree.park(frame);
            Ok(Done::running(Did::Moved))
        }
        Plan::End => Ok(carry_end(worker, frame, choice, parts)),
        Plan::Trap { kind, n } => Ok(carry_trap(worker, frame, kind, n, parts)),
        Plan::Take {
            child,
            n,
            reached,
            value,
        } => {
            let writing = Writing { reached, value };
            Ok(carry_take(worker, frame, Sender { child, n }, writing, choice, parts))
        }
        Plan::Enter {
            child,
            n,
            inlet,
            arguments,
        } => {
            let start = Start {
                number: inlet,
                body,
                arguments,
            };
            carry_enter(worker, frame, Sender { child, n }, start, choice, parts)
        }
        Plan::Go { n, to } => Ok(acted(worker, go_on(frame, to), n, &mut parts.hands)),
        Plan::Write {
            n,
            reached,
            value,
            to,
        } => {
            let writing = Writing { reached, value };
            Ok(carry_write(worker, frame, Passage { n, to }, writing, parts))
        }
        Plan::Call {
            n,
            awaits,
            callee,
            arguments,
            to,
        } => {
            let start = Start {
                number: callee,
                body,
                arguments,
            };
            carry_call(worker, frame, Passage { n, to }, awaits, start, parts)
        }
        Plan::Leave { n } => {
            let frame = leave(frame, &mut parts.spent);
            Ok(acted(worker, frame, n, &mut parts.hands))
        }
        Plan::Answer { n, reached, value } => {
            let writing = Writing { reached, value };
            Ok(carry_answer(worker, frame, n, writing, parts))
        }
        Plan::Return { n, value } => carry_return(worker, frame, n, value, choice, parts),
        Plan::Spawn {
            n,
            receiver,
            callee,
            arguments,
            to,
        } => {
            let start = Start {
                number: callee,
                body,
                arguments,
            };
            carry_spawn(worker, frame, Passage { n, to }, receiver, start, parts)
        }
        Plan::Print { n, bytes, to } => carry_print(worker, frame, Passage { n, to }, bytes, parts),
        Plan::TurnLock { n, lock, now, to } => Ok(carry_lock_turn(
            worker,
            frame,
            Passage { n, to },
            lock,
            now,
            parts,
        )),
        Plan::Abort { n, to } => Ok(carry_abort(worker, frame, Passage { n, to }, parts)),
    }
}
