//! A plan is carried out, and a record of the step is kept.

ghost use Rattle.std.specs.Prelude.{◌≡◌, true, Some, None, IfOk, OnErr, OnOk};
ghost use Rattle.std.specs.Option.{option_copied};
ghost use Rattle.cilk_machine_undo.specs.plans.Words.{plan_of};
ghost use Rattle.cilk_machine_carry.specs.Carries.{Becomes, CanCarry, Carries};
ghost use Rattle.cilk_machine_undo.specs.Notes.{Undoes};
ghost use Rattle.cilk_machine_undo.specs.Words.{undo_by, machine_in};

use cilk_machine_carry::{carry_lightly, carry_out};
use cilk_machine_undo::{
    Body, Did, Done, Light, NoMemory, Outcome, Parts, Plan, Undo, depth_in_hand, fill, note,
    note_lightly,
};

/// Carries out the light plan as `carry_lightly` does, and answers the record of the step. Where memory has run out, nothing has
/// changed.
pub(crate) fn carry_lightly_noted(
    worker: u8,
    light: Light,
    choice: u64,
    parts: &mut Parts,
) -> Result<(Did, Undo), NoMemory>
    requires { CanCarry parts.old worker None (plan_of light) }
    ensures done { IfOk result (λ r. Carries choice parts.old worker None (plan_of light) parts.new (record { outcome = Outcome.Running; did = r.0 })) }
    ensures becomes { IfOk result (λ r. Becomes choice parts.old worker None (plan_of light) parts.new (record { outcome = Outcome.Running; did = r.0 })) }
    ensures undoes { IfOk result (λ r. Undoes (undo_by r.1) parts.old parts.new) }
    ensures same { OnErr result (machine_in parts.new ≡ machine_in parts.old) }
    ensures living { OnErr result (parts.new.tree.living ≡ parts.old.tree.living) }
{
    // Brings its clauses into the proof.
    let _depth = depth_in_hand(worker, &parts.hands);
    match note_lightly(worker, &light, parts) {
        Err(_) => Err(NoMemory),
        Ok(mut undo) => {
            let did = carry_lightly(worker, light, choice, parts);
            fill(&mut undo, &mut parts.spent);
            Ok((did, undo))
        }
    }
}

/// Carries out the plan as `carry_out` does, and answers the record of the step. Where memory has run out, nothing has changed.
pub(crate) fn carry_out_noted(
    worker: u8,
    plan: Plan,
    body: Option<&Body>,
    choice: u64,
    parts: &mut Parts,
) -> Result<(Done, Undo), NoMemory>
    requires { CanCarry parts.old worker (option_copied body) plan }
    ensures done { IfOk result (λ r. Carries choice parts.old worker (option_copied body.entry) plan parts.new r.0) }
    ensures becomes { IfOk result (λ r. Becomes choice parts.old worker (option_copied body.entry) plan parts.new r.0) }
    ensures undoes { IfOk result (λ r. Undoes (undo_by r.1) parts.old parts.new) }
    ensures same { OnErr result (machine_in parts.new ≡ machine_in parts.old) }
    ensures living { OnErr result (parts.new.tree.living ≡ parts.old.tree.living) }
{
    // Brings its clauses into the proof.
    let _depth = depth_in_hand(worker, &parts.hands);
    match note(worker, &plan, parts) {
        Err(_) => Err(NoMemory),
        Ok(mut undo) => match carry_out(worker, plan, body, choice, parts) {
            Err(_) => Err(NoMemory),
            Ok(done) => {
                fill(&mut undo, &mut parts.spent);
                Ok((done, undo))
            }
        },
    }
}
