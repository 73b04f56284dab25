//! A machine with the list of the choices that led to it.

ghost use Rattle.std.specs.Prelude.{◌≡◌, ◌<◌, ◌⊎◌, ◌↔◌, [], ◌∷◌, ◌++◌, None, Some, option_map, Err, IfOk, IfErr, IfSome, OnOk, OnErr};
ghost use Rattle.cilk_machine.specs.model.Choice as choices;
ghost use Rattle.cilk_log.specs.choices.Words.{choice_of, event_of, reason_of};
ghost use Rattle.cilk_machine.specs.Looking.{look_refused, peek_at, taken_down_at, IsUnseen, IsUnsettled};
ghost use Rattle.cilk_machine.specs.Situation.{workers_of};
ghost use Rattle.cilk_machine.specs.eval.Known.{known};
ghost use Rattle.cilk_machine.specs.labelled.Value.{value_of};
ghost use Rattle.cilk_machine.specs.step.Peeks.{code_at};
ghost use Rattle.cilk_machine.specs.Made.{Makes, MakesBy, IsRefused};
ghost use Rattle.cilk_machine.specs.Stands.{Opens};
ghost use Rattle.cilk_run_locked.specs.Histories.{IsLedBy};

use crate::glimpse::Glimpse;
use crate::proposal::Proposal;
use cilk_log::Choices;
use cilk_machine::{
    Act, Choice, Did, Event, Known, Listed, Loaded, Machine, MachineFault, Refusal, Trap,
};
use std::alloc::Global;
use std::marker::Model;

/// A machine, and the choices that led to it from where its program starts. It has no lock itself: in a run by several workers
/// it lies in the `Table` of `cilk_run`, which a mutex holds. One who has it alone may make choices.
#[derive(Drop)]
pub struct Locked {
    machine: Machine,
    history: Vec<Choice>,
}

impl Model for Locked {
    ghost use Rattle.cilk_run_locked.specs.Histories as histories;
    ghost use Rattle.cilk_run_locked.specs.Histories.{IsLedBy};
    ghost use Rattle.cilk_machine.specs.syntax.ProgramCoding.{coded_Program};
    ghost use Rattle.std.specs.Coded.{codes};

    ghost Value = { histories.Locked };

    ghost coded = { Prim.hlevel (codes, coded_Program) };

    ghost view = { λ l. record { machine = l.machine; history = l.history.items } };

    ghost invariant = { λ l. IsLedBy l.machine l.history.items };
}

impl Locked {
    /// A program that 1 to 64 workers are to run, and no choice yet.
    pub fn new(alloc: Global, program: Loaded, workers: u8) -> Result<Locked, MachineFault>
        ensures workers { (result ≡ Err MachineFault.Workers) ↔ ((workers ≡ 0) ⊎ (64 < workers)) }
        ensures program { IfOk result (λ l. l.machine.program ≡ program) }
        ensures crew { IfOk result (λ l. workers_of l.machine ≡ workers) }
        ensures opens { IfOk result (λ l. Opens l.machine) }
        ensures history { IfOk result (λ l. l.history ≡ []) }
    {
        let machine = Machine::new(alloc, program, workers)?;
        Ok(Locked {
            machine,
            history: Vec::new(alloc),
        })
    }

    /// Makes a choice as `advance` does, and tells by paths what it did. It is called by tests alone.
    pub fn make(&mut self, choice: Choice) -> Result<Event, Refusal>
        ensures made { IfOk result (λ e. Makes self.old.machine self.new.machine (choice_of choice) (event_of e)) }
        ensures history { OnOk result (self.new.history ≡ self.old.history ++ choice ∷ []) }
        ensures refused { IfErr result (λ r. IsRefused self.old.machine (choice_of choice) (reason_of r)) }
        ensures unchanged { OnErr result (self.new ≡ self.old) }
    {
        if self.history.reserve(1).is_err() {
            return Err(self.want(choice));
        }
        let event = self.machine.make(choice)?;
        self.history.push_reserved(choice);
        Ok(event)
    }

    /// Makes a choice, which the history ends with then. Where it is refused, both stay as they were: the first reason that holds is told, and
    /// want of memory only where there is no other. An instance that something befell is told by its number.
    #[inline(always)]
    pub fn advance(&mut self, choice: Choice) -> Result<Did, Refusal>
        ensures made { IfOk result (λ did. MakesBy self.old.machine self.new.machine (choice_of choice) did) }
        ensures history { OnOk result (self.new.history ≡ self.old.history ++ choice ∷ []) }
        ensures refused { IfErr result (λ r. IsRefused self.old.machine (choice_of choice) (reason_of r)) }
        ensures unchanged { OnErr result (self.new ≡ self.old) }
    {
        if self.history.reserve(1).is_err() {
            return Err(self.want(choice));
        }
        let did = self.machine.advance(choice)?;
        self.history.push_reserved(choice);
        Ok(did)
    }

    /// What the worker's next step evaluates, where it assigns to a variable that is no element, or tests, and neither an element nor `SYNCHED`
    /// stands in the expression. It is refused as a step is, but for one that has to wait. With `propose` and `commit` this is for who takes turns of his
    /// own, as tests alone do: the workers of `cilk_run::run` take the values down by the number of the action, which needs no path.
    pub fn glimpse(&self, worker: u8) -> Result<Option<Glimpse>, Refusal>
        ensures free { OnOk result (look_refused self.now.machine worker ≡ None) }
        ensures looks { IfOk result (λ o. option_map (λ g. g.peek) o ≡ peek_at self.now.machine worker) }
        ensures worker { IfOk result (λ o. IfSome o (λ g. g.worker ≡ worker)) }
        ensures refused { IfErr result (IsUnseen self.now.machine worker) }
    {
        match self.machine.peek(worker) {
            Err(refusal) => Err(refusal),
            Ok(None) => Ok(None),
            Ok(Some(peek)) => Ok(Some(Glimpse::new(worker, peek))),
        }
    }

    /// Makes the choice of a step by the value of what its worker saw of it, and the history ends with the choice then. Where one sees something
    /// else by now, it is refused as stale. A refusal changes nothing.
    pub fn commit(&mut self, proposal: Proposal) -> Result<Event, Refusal>
        ensures free { OnOk result (look_refused self.old.machine proposal.worker ≡ None) }
        ensures seen { OnOk result (peek_at self.old.machine proposal.worker ≡ Some proposal.peek) }
        ensures made { IfOk result (λ e. Makes self.old.machine self.new.machine (record { worker = proposal.worker; act = choices.step }) (event_of e)) }
        ensures history { OnOk result (self.new.history ≡ self.old.history ++ record { worker = proposal.worker; act = Act.Step } ∷ []) }
        ensures refused { IfErr result (IsUnsettled self.old.machine proposal.worker proposal.peek) }
        ensures unchanged { OnErr result (self.new ≡ self.old) }
    {
        self.settle(&proposal)
    }

    // The same, where the proposal stays the caller's. `commit` alone calls it.
    fn settle(&mut self, proposal: &Proposal) -> Result<Event, Refusal>
        ensures free { OnOk result (look_refused self.old.machine proposal.now.worker ≡ None) }
        ensures seen { OnOk result (peek_at self.old.machine proposal.now.worker ≡ Some proposal.now.peek) }
        ensures made { IfOk result
            (λ e. Makes self.old.machine self.new.machine (record { worker = proposal.now.worker; act = choices.step }) (event_of e)) }
        ensures history { OnOk result (self.new.history ≡ self.old.history ++ record { worker = proposal.now.worker; act = Act.Step } ∷ []) }
        ensures refused { IfErr result (IsUnsettled self.old.machine proposal.now.worker proposal.now.peek) }
        ensures unchanged { OnErr result (self.new ≡ self.old) }
    {
        if self.history.reserve(1).is_err() {
            return Err(self.want_of(proposal));
        }
        let worker = proposal.worker();
        let event = self
            .machine
            .settle(worker, proposal.peek(), proposal.value())?;
        self.history.push_reserved(Choice {
            worker,
            act: Act::Step,
        });
        Ok(event)
    }

    /// The same by what was taken down of the step, with the value of the expression of action n over that. An instance that something befell is
    /// told by its number.
    pub fn settle_taken_down(
        &mut self,
        worker: u8,
        n: u32,
        listed: &Listed,
        values: &[Known],
        value: Result<i32, Trap>,
    ) -> Result<Did, Refusal>
        requires code { code_at self.old.machine.program n ≡ Some listed.now }
        requires value { value ≡ value_of (known values.now) listed.now }
        ensures seen { OnOk result (peek_at self.old.machine worker ≡ Some (taken_down_at self.old.machine worker n listed.now values.now)) }
        ensures made { IfOk result (λ did. MakesBy self.old.machine self.new.machine (record { worker = worker; act = choices.step }) did) }
        ensures history { OnOk result (self.new.history ≡ self.old.history ++ record { worker = worker; act = Act.Step } ∷ []) }
        ensures refused { IfErr result (IsUnsettled self.old.machine worker (taken_down_at self.old.machine worker n listed.now values.now)) }
        ensures unchanged { OnErr result (self.new ≡ self.old) }
    {
        if self.history.reserve(1).is_err() {
            return Err(self.want_of_taken_down(worker, n, listed, values));
        }
        let did = self
            .machine
            .settle_taken_down(worker, n, listed, values, value)?;
        let act = Act::Step;
        self.history.push_reserved(Choice { worker, act });
        Ok(did)
    }

    // Why a step is not made by what was taken down of it where the history cannot grow.
    fn want_of_taken_down(&self, worker: u8, n: u32, listed: &Listed, values: &[Known]) -> Refusal
        requires { code_at self.now.machine.program n ≡ Some listed.now }
        ensures { IsUnsettled self.now.machine worker (taken_down_at self.now.machine worker n listed.now values.now) result }
    {
        match self.machine.taken_down_refusal(worker, n, listed, values) {
            None => Refusal::Memory,
            Some(refusal) => refusal,
        }
    }

    // Why a step is not made by what was seen of it where the history cannot grow.
    fn want_of(&self, proposal: &Proposal) -> Refusal
        ensures { IsUnsettled self.now.machine proposal.now.worker proposal.now.peek result }
    {
        match self
            .machine
            .settle_refusal(proposal.worker(), proposal.peek())
        {
            None => Refusal::Memory,
            Some(refusal) => refusal,
        }
    }

    // Why the choice is not made where the history cannot grow.
    fn want(&self, choice: Choice) -> Refusal
        ensures { IsRefused self.now.machine (choice_of choice) (reason_of result) }
    {
        match self.machine.refusal(choice) {
            None => Refusal::Memory,
            Some(refusal) => refusal,
        }
    }

    /// The machine.
    pub fn machine(&self) -> &Machine
        ensures value { result.now ≡ self.now.machine }
        ensures led { IsLedBy self.now.machine self.now.history }
    {
        &self.machine
    }

    /// The choices that led to it, in their order.
    pub fn history(&self) -> &[Choice]
        ensures value { result.now ≡ self.now.history }
        ensures led { IsLedBy self.now.machine self.now.history }
    {
        self.history.as_slice()
    }

    /// The choices that led to it, for the log of a run. The machine is dropped.
    pub fn into_choices(self) -> Choices
        ensures { result ≡ self.history }
    {
        Choices::of(self.history)
    }
}
