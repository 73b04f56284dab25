//! Steps of which a record is kept, and choices that are taken back.

ghost use Rattle.std.specs.Prelude.{◌≡◌, ◌<◌, ◌-◌, ◌^◌, true, false, [], length, None, IfOk, IfErr, OnErr};
ghost use Rattle.cilk_sched.specs.model.Choice as choices;
ghost use Rattle.cilk_machine.specs.Refused.{refused_by, planned_in, IsLight};
ghost use Rattle.cilk_machine.specs.Made.{MakesBy, TakesBack};
ghost use Rattle.cilk_machine.specs.Told.{IsTrapPath};

use super::Machine;
use crate::keeping::{carry_lightly_kept, carry_out_kept, put_last, take_last};
use crate::step_events::{body_numbered, outcome_with, started_number, trapper_of};
use cilk_machine_step::{Light, Plan};
use cilk_machine_undo::{Did, take_back};
use cilk_sched::{Act, Memory, Outcome, Path, Refusal};
use std::alloc::AllocError;

impl Machine {
    /// Takes the last choice back, whose record is used up. False where there is no record, and nothing has changed, as where memory has run out.
    pub fn undo(&mut self) -> Result<bool, Memory>
        ensures back { result ≡ Ok true → TakesBack self.old self.new }
        ensures none { result ≡ Ok false → self.old.past ≡ [] }
        ensures unchanged { result ≡ Ok false → self.new ≡ self.old }
        ensures same { OnErr result (self.new ≡ self.old) }
    {
        match take_last(&mut self.records) {
            None => Ok(false),
            Some(last) => match take_back(last, &mut self.parts) {
                Ok(()) => {
                    self.outcome = Outcome::Running;
                    self.choices -= 1;
                    Ok(true)
                }
                Err(last) => {
                    put_last(&mut self.records, last);
                    Err(Memory::from(AllocError))
                }
            },
        }
    }

    /// How many choices can be taken back.
    pub fn records(&self) -> usize
        ensures { result ≡ length self.now.past }
    {
        self.records.as_slice().len()
    }

    /// Drops the records. Nothing else changes: records go on being kept, if they were.
    pub fn forget(&mut self)
        ensures { self.new ≡ record self.old { past = [] } }
    {
        self.records.clear();
    }

    // The instance in the worker's hand takes its step, which is a light one, and its record is kept.
    #[inline(never)]
    pub(super) fn step_lightly_kept(&mut self, worker: u8, light: Light) -> Result<Did, Refusal>
        requires light { IsLight self.old worker light }
        requires room { self.old.choices < 2 ^ 64 - 1 }
        requires keeps { self.old.keeps ≡ true }
        ensures made { IfOk result (λ did. MakesBy self.old self.new (record { worker = worker; act = choices.step }) did) }
        ensures memory { IfErr result (λ r. r ≡ Refusal.Memory) }
        ensures unchanged { OnErr result (self.new ≡ self.old) }
    {
        match carry_lightly_kept(
            worker,
            light,
            self.choices + 1,
            &mut self.parts,
            &mut self.records,
        ) {
            Err(_) => Err(Refusal::Memory),
            Ok(did) => {
                self.choices += 1;
                Ok(did)
            }
        }
    }

    // The same by any plan, with the path of the instance, where the plan traps it.
    pub(super) fn carry_kept(&mut self, worker: u8, plan: Plan, path: Path) -> Result<Did, Refusal>
        requires free { refused_by self.old (record { worker = worker; act = Act.Step }) ≡ None }
        requires planned { plan ≡ planned_in self.old worker }
        requires path { IsTrapPath self.old worker plan path }
        requires room { self.old.choices < 2 ^ 64 - 1 }
        requires keeps { self.old.keeps ≡ true }
        ensures made { IfOk result (λ did. MakesBy self.old self.new (record { worker = worker; act = choices.step }) did) }
        ensures memory { IfErr result (λ r. r ≡ Refusal.Memory) }
        ensures unchanged { OnErr result (self.new ≡ self.old) }
    {
        let body = body_numbered(&self.loaded, started_number(&plan));
        match carry_out_kept(
            worker,
            plan,
            body,
            self.choices + 1,
            &mut self.parts,
            &mut self.records,
        ) {
            Err(_) => Err(Refusal::Memory),
            Ok(done) => {
                self.trapper = trapper_of(done.outcome);
                self.outcome = outcome_with(path, done.outcome);
                self.choices += 1;
                Ok(done.did)
            }
        }
    }
}
