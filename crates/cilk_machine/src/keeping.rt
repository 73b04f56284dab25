//! The records of a machine: steps whose records are kept, and those of frames that came to a hand.

ghost use Rattle.std.specs.Prelude.{◌≡◌, ◌<◌, ◌≤◌, ◌+◌, ◌∷◌, [], true, false, None, Some, vec_len, vec_capacity, IfNone, IfOk, IfSome, OnErr, OnOk};
ghost use Rattle.std.specs.Option.{option_copied};
ghost use Rattle.cilk_sched.specs.model.Hands.{IsWorker, hand_of};
ghost use Rattle.cilk_machine_undo.specs.plans.Words.{plan_of};
ghost use Rattle.cilk_machine_undo.specs.plans.Ready.{frame_in};
ghost use Rattle.cilk_machine_carry.specs.Carries.{Becomes, CanCarry, Carries};
ghost use Rattle.cilk_machine_undo.specs.Records.{undo_of};
ghost use Rattle.cilk_machine_undo.specs.Undo.{popped, stolen};
ghost use Rattle.cilk_machine_undo.specs.Words.{undo_by, machine_in};
ghost use Rattle.cilk_machine.specs.Situation.{kept_by};
ghost use Rattle.cilk_machine.specs.Pasts.{kept_of};
ghost use Rattle.cilk_machine.specs.Kept.{Adds};

use crate::carrying::{carry_lightly_noted, carry_out_noted};
use cilk_machine_carry::carry_lightly;
use cilk_machine_step::{Light, Plan};
use cilk_machine_undo::{
    Body, Did, Done, NoMemory, Outcome, Parts, Undo, depth_in_hand, note_go, note_write,
};
use cilk_sched::Memory;
use std::alloc::Global;

// As many frames may come to a hand before the next step, which makes room again: a pop and a steal take no memory.
const WORKERS: usize = 64;

/// No records yet. If any are to be kept, there is room for one of each worker.
pub(crate) fn no_records(alloc: Global, keeps: bool) -> Result<Vec<Undo>, Memory>
    ensures none { IfOk result (λ records. records.items ≡ []) }
    ensures count { IfOk result (λ records. vec_len records ≡ 0) }
    ensures room { IfOk result (λ records. keeps ≡ true → 64 ≤ vec_capacity records) }
{
    if keeps {
        Ok(Vec::with_capacity(alloc, WORKERS)?)
    } else {
        Ok(Vec::new(alloc))
    }
}

/// Makes room for one record of each worker, if any are to be kept.
pub(crate) fn make_room(keeps: bool, records: &mut Vec<Undo>) -> Result<(), Memory>
    ensures room { OnOk result (keeps ≡ true → vec_len records.new + 64 ≤ vec_capacity records.new) }
    ensures kept { kept_of records.new.items ≡ kept_of records.old.items }
    ensures count { vec_len records.new ≡ vec_len records.old }
    ensures capacity { vec_capacity records.old ≤ vec_capacity records.new }
{
    if keeps {
        records.reserve(WORKERS)?;
    }
    Ok(())
}

/// Carries out a light plan as `carry_lightly` does, and keeps the record of the step. There is room then for one more of each worker.
/// Where memory has run out, nothing has changed.
pub(crate) fn carry_lightly_kept(
    worker: u8,
    light: Light,
    choice: u64,
    parts: &mut Parts,
    records: &mut Vec<Undo>,
) -> Result<Did, NoMemory>
    requires { CanCarry parts.old worker None (plan_of light) }
    ensures done { IfOk result (λ did. Carries choice parts.old worker None (plan_of light) parts.new (record { outcome = Outcome.Running; did = did })) }
    ensures becomes { IfOk result (λ did. Becomes choice parts.old worker None (plan_of light) parts.new (record { outcome = Outcome.Running; did = did })) }
    ensures adds { OnOk result (Adds parts.old parts.new (kept_of records.old.items) (kept_of records.new.items)) }
    ensures room { OnOk result (vec_len records.new + 64 ≤ vec_capacity records.new) }
    ensures same { OnErr result (machine_in parts.new ≡ machine_in parts.old) }
    ensures kept { OnErr result (kept_of records.new.items ≡ kept_of records.old.items) }
    ensures count { OnErr result (vec_len records.new ≡ vec_len records.old) }
    ensures capacity { vec_capacity records.old ≤ vec_capacity records.new }
{
    if records.reserve(WORKERS + 1).is_err() {
        return Err(NoMemory);
    }
    // Brings its clauses into the proof.
    let _depth = depth_in_hand(worker, &parts.hands);
    if keep_small(worker, &light, parts, records) {
        return Ok(carry_lightly(worker, light, choice, parts));
    }
    match carry_lightly_noted(worker, light, choice, parts) {
        Err(_) => Err(NoMemory),
        Ok((did, undo)) => {
            put_last(records, undo);
            Ok(did)
        }
    }
}

// Keeps the record of the step of a light plan, for which there is room, if no box is wanted for it and the step moves nothing out of the machine: where
// it only goes on, or writes to a cell. These are most steps, and so their records are made where they stay.
#[inline(always)]
fn keep_small(worker: u8, light: &Light, parts: &Parts, records: &mut Vec<Undo>) -> bool
    requires worker { IsWorker parts.now.hands worker }
    requires held { hand_of parts.now.hands worker ≡ Some (frame_in parts.now.hands worker) }
    requires room { vec_len records.old < vec_capacity records.old }
    ensures kept { result ≡ true → kept_of records.new.items
        ≡ undo_of (machine_in parts.now) worker (frame_in parts.now.hands worker) (plan_of light.now) ∷ kept_of records.old.items }
    ensures count { vec_len records.new ≤ vec_len records.old + 1 }
    ensures capacity { vec_capacity records.new ≡ vec_capacity records.old }
    ensures same { result ≡ false → records.new ≡ records.old }
{
    match parts.hands.hand(worker) {
        None => unreachable!(),
        Some(frame) => match *light {
            Light::Go { n: _, to: _ } => {
                put_last(records, note_go(worker, frame));
                true
            }
            Light::Write {
                n: _,
                reached,
                value: _,
                to: _,
            } => {
                put_last(records, note_write(worker, frame, reached, parts));
                true
            }
            _ => false,
        },
    }
}

/// Carries out a plan as `carry_out` does, and keeps the record of the step, as `carry_lightly_kept` does.
pub(crate) fn carry_out_kept(
    worker: u8,
    plan: Plan,
    body: Option<&Body>,
    choice: u64,
    parts: &mut Parts,
    records: &mut Vec<Undo>,
) -> Result<Done, NoMemory>
    requires { CanCarry parts.old worker (option_copied body) plan }
    ensures done { IfOk result (λ done. Carries choice parts.old worker (option_copied body.entry) plan parts.new done) }
    ensures becomes { IfOk result (λ done. Becomes choice parts.old worker (option_copied body.entry) plan parts.new done) }
    ensures adds { OnOk result (Adds parts.old parts.new (kept_of records.old.items) (kept_of records.new.items)) }
    ensures room { OnOk result (vec_len records.new + 64 ≤ vec_capacity records.new) }
    ensures same { OnErr result (machine_in parts.new ≡ machine_in parts.old) }
    ensures kept { OnErr result (kept_of records.new.items ≡ kept_of records.old.items) }
    ensures count { OnErr result (vec_len records.new ≡ vec_len records.old) }
    ensures capacity { vec_capacity records.old ≤ vec_capacity records.new }
{
    if records.reserve(WORKERS + 1).is_err() {
        drop(plan);
        return Err(NoMemory);
    }
    match carry_out_noted(worker, plan, body, choice, parts) {
        Err(_) => Err(NoMemory),
        Ok((done, undo)) => {
            put_last(records, undo);
            Ok(done)
        }
    }
}

/// Keeps the record of a pop, if records are kept.
pub(crate) fn keep_pop(keeps: bool, worker: u8, records: &mut Vec<Undo>)
    requires { keeps ≡ true → vec_len records.old < vec_capacity records.old }
    ensures kept { kept_of records.new.items ≡ kept_by keeps (popped worker) (kept_of records.old.items) }
    ensures count { vec_len records.new ≤ vec_len records.old + 1 }
    ensures capacity { vec_capacity records.new ≡ vec_capacity records.old }
{
    if keeps {
        put_last(records, Undo::Popped { worker });
    }
}

/// Keeps the record of a steal, if records are kept.
pub(crate) fn keep_steal(keeps: bool, worker: u8, victim: u8, records: &mut Vec<Undo>)
    requires { keeps ≡ true → vec_len records.old < vec_capacity records.old }
    ensures kept { kept_of records.new.items ≡ kept_by keeps (stolen worker victim) (kept_of records.old.items) }
    ensures count { vec_len records.new ≤ vec_len records.old + 1 }
    ensures capacity { vec_capacity records.new ≡ vec_capacity records.old }
{
    if keeps {
        put_last(records, Undo::Stolen { worker, victim });
    }
}

/// Puts a record behind the others, for which there is room.
pub(crate) fn put_last(records: &mut Vec<Undo>, undo: Undo)
    requires { vec_len records.old < vec_capacity records.old }
    ensures kept { kept_of records.new.items ≡ undo_by undo ∷ kept_of records.old.items }
    ensures count { vec_len records.new ≡ vec_len records.old + 1 }
    ensures capacity { vec_capacity records.new ≡ vec_capacity records.old }
{
    records.push_reserved(undo);
}

/// Takes the last record, if there is one, which leaves its room.
pub(crate) fn take_last(records: &mut Vec<Undo>) -> Option<Undo>
    ensures none { IfNone result (kept_of records.old.items ≡ []) }
    ensures same { IfNone result (kept_of records.new.items ≡ []) }
    ensures some { IfSome result (λ u. kept_of records.old.items ≡ undo_by u ∷ kept_of records.new.items) }
    ensures fewer { IfSome result (λ u. vec_len records.new + 1 ≡ vec_len records.old) }
    ensures left { IfSome result (λ u. vec_len records.new < vec_capacity records.new) }
    ensures count { vec_len records.new ≤ vec_len records.old }
    ensures capacity { vec_capacity records.new ≡ vec_capacity records.old }
{
    records.pop()
}
