//! The record of a step is read off the machine before it. What the step will move out of the machine is not there yet.

ghost use Rattle.std.specs.Prelude.{◌≡◌, true, Some, IfOk};
ghost use Rattle.cilk_machine_plan.specs.model.Hands.{IsWorker, hand_of};
ghost use Rattle.cilk_machine_plan.specs.spawn.Nodes.{node_at, is_live};
ghost use Rattle.cilk_machine_plan.specs.Words.{plan_of};
ghost use Rattle.cilk_machine_plan.specs.Ready.{frame_in};
ghost use Rattle.cilk_machine_undo.specs.Notes.{Notes, HasCaller};
ghost use Rattle.cilk_machine_undo.specs.Words.{machine_in};

use crate::notes::{
    note_abort, note_answer, note_call, note_end, note_enter, note_go, note_leave, note_park,
    note_print, note_return, note_spawn, note_take, note_turn, note_write,
};
use crate::undo::Undo;
use cilk_machine_plan::{Light, NoMemory, Parts, Plan};

/// The record of the step of a light plan.
pub fn note_lightly(worker: u8, light: &Light, parts: &Parts) -> Result<Undo, NoMemory>
    requires worker { IsWorker parts.now.hands worker }
    requires held { hand_of parts.now.hands worker ≡ Some (frame_in parts.now.hands worker) }
    requires live { is_live (node_at parts.now.tree.nodes (frame_in parts.now.hands worker).id) ≡ true }
    requires inside { HasCaller (plan_of light.now) (frame_in parts.now.hands worker) }
    ensures { IfOk result (Notes (machine_in parts.now) worker (frame_in parts.now.hands worker) (plan_of light.now)) }
{
    match parts.hands.hand(worker) {
        None => unreachable!(),
        Some(frame) => match *light {
            Light::Take {
                child: _,
                n: _,
                reached,
                value: _,
            } => note_take(worker, frame, reached, parts),
            Light::Go { n: _, to: _ } => Ok(note_go(worker, frame)),
            Light::Write {
                n: _,
                reached,
                value: _,
                to: _,
            } => Ok(note_write(worker, frame, reached, parts)),
            Light::Leave { n: _ } => note_leave(worker, parts),
            Light::Answer {
                n: _,
                reached,
                value: _,
            } => note_answer(worker, frame, reached, parts),
        },
    }
}

/// The record of the step of any plan.
pub fn note(worker: u8, plan: &Plan, parts: &Parts) -> Result<Undo, NoMemory>
    requires worker { IsWorker parts.now.hands worker }
    requires held { hand_of parts.now.hands worker ≡ Some (frame_in parts.now.hands worker) }
    requires live { is_live (node_at parts.now.tree.nodes (frame_in parts.now.hands worker).id) ≡ true }
    requires inside { HasCaller plan.now (frame_in parts.now.hands worker) }
    ensures { IfOk result (Notes (machine_in parts.now) worker (frame_in parts.now.hands worker) plan.now) }
{
    match parts.hands.hand(worker) {
        None => unreachable!(),
        Some(frame) => match plan {
            Plan::Wait => Ok(Undo::Stayed { worker }),
            Plan::Park => Ok(note_park(worker, frame)),
            Plan::End => note_end(worker, frame, parts),
            Plan::Trap { kind: _, n: _ } => Ok(Undo::Stayed { worker }),
            Plan::Take {
                child: _,
                n: _,
                reached,
                value: _,
            } => note_take(worker, frame, *reached, parts),
            Plan::Enter {
                child: _,
                n: _,
                inlet: _,
                arguments: _,
            } => note_enter(worker, frame, parts),
            Plan::Go { n: _, to: _ } => Ok(note_go(worker, frame)),
            Plan::Write {
                n: _,
                reached,
                value: _,
                to: _,
            } => Ok(note_write(worker, frame, *reached, parts)),
            Plan::Call {
                n: _,
                awaits: _,
                callee: _,
                arguments: _,
                to: _,
            } => Ok(note_call(worker, frame)),
            Plan::Leave { n: _ } => note_leave(worker, parts),
            Plan::Answer {
                n: _,
                reached,
                value: _,
            } => note_answer(worker, frame, *reached, parts),
            Plan::Return { n: _, value: _ } => note_return(worker, frame, parts),
            Plan::Spawn {
                n: _,
                receiver: _,
                callee: _,
                arguments: _,
                to: _,
            } => Ok(note_spawn(worker, frame)),
            Plan::Print {
                n: _,
                bytes: _,
                to: _,
            } => Ok(note_print(worker, frame, parts)),
            Plan::TurnLock {
                n: _,
                lock,
                now: _,
                to: _,
            } => Ok(note_turn(worker, frame, *lock, parts)),
            Plan::Abort { n: _, to: _ } => note_abort(worker, frame, parts),
        },
    }
}
