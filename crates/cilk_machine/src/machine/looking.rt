//! What a worker's step evaluates, seen beforehand, and the step taken by its value.

ghost use Rattle.std.specs.Prelude.{◌≡◌, ◌≢◌, ◌<◌, ◌-◌, ◌^◌, ◌⊎◌, Decides, true, Some, None, option_map, OnErr, OnOk, IfOk, IfErr, IfSome, IfNone};
ghost use Rattle.std.specs.Prelude.{IsSome, slice_get};
ghost use Rattle.cilk_sched.specs.model.Choice as choices;
ghost use Rattle.cilk_sched.specs.model.Hands.{IsWorker};
ghost use Rattle.cilk_sched.specs.Words.{reason_of, event_of};
ghost use Rattle.cilk_machine_undo.specs.eval.Known.{known};
ghost use Rattle.cilk_machine_undo.specs.labelled.Value.{value_of};
ghost use Rattle.cilk_machine_step.specs.Peeks.{code_at, peek_of};
ghost use Rattle.cilk_machine.specs.Situation.{workers_of};
ghost use Rattle.cilk_machine.specs.Refused.{runs, is_worker_of, is_full, refused_by, planned_in};
ghost use Rattle.cilk_machine.specs.Made.{Makes, MakesBy, IsRefused};
ghost use Rattle.cilk_machine.specs.Looking.{look_refused, peek_at, IsUnseen, IsUnsettled, IsStale};
ghost use Rattle.cilk_machine.specs.Looking.{IsTakenDown, IsSeenAt, taken_down_at, number_ahead, plan_by};
ghost use Rattle.cilk_machine_undo.specs.plans.Words.{plan_of};

use super::Machine;
use cilk_machine_carry::is_worker;
use cilk_machine_step::{
    Known, Light, Listed, Peek, Plan, Trap, is_seen, is_still_seen, look_ahead, number_ahead,
    plan_by_value, take_down,
};
use cilk_machine_undo::Did;
use cilk_sched::{Act, Event, Memory, Outcome, Refusal};

impl Machine {
    /// What the next step of a worker evaluates, where it assigns to a variable that is no element, or tests, and neither an element nor
    /// `SYNCHED` stands in the expression. It is refused as a step is, but for one that has to wait, of which there is nothing to see.
    /// Tests alone call this and `settle`, by themselves or by `glimpse` and `commit` of `Locked`: the workers of a run go by `take_down`.
    pub fn peek(&self, worker: u8) -> Result<Option<Peek>, Refusal>
        ensures free { OnOk result (look_refused self.now worker ≡ None) }
        ensures looks { IfOk result (λ peek. option_map peek_of peek ≡ peek_at self.now worker) }
        ensures refused { IfErr result (IsUnseen self.now worker) }
    {
        match self.look_refusal(worker) {
            Some(refusal) => Err(refusal),
            None => self.look(worker),
        }
    }

    // The same of a worker that has a frame in its hand.
    fn look(&self, worker: u8) -> Result<Option<Peek>, Refusal>
        requires worker { IsWorker self.now.machine.places worker }
        requires full { is_full self.now.machine.places worker ≡ true }
        ensures looks { IfOk result (λ peek. option_map peek_of peek ≡ peek_at self.now worker) }
        ensures memory { IfErr result (λ r. r ≡ Refusal.Memory) }
    {
        match self.parts.hands.hand(worker) {
            None => unreachable!(),
            Some(frame) => match look_ahead(self.alloc, &self.scene(frame)) {
                Err(_) => Err(Refusal::Memory),
                Ok(peek) => Ok(peek),
            },
        }
    }

    /// Makes the choice of the worker's step by the value of what was seen of it. Where one sees something else by now, it is refused as stale.
    /// A refusal changes nothing.
    pub fn settle(
        &mut self,
        worker: u8,
        peek: &Peek,
        value: Result<i32, Trap>,
    ) -> Result<Event, Refusal>
        requires room { self.old.choices < 2 ^ 64 - 1 }
        requires value { value ≡ value_of (known peek.now.values.items) peek.now.code }
        ensures free { OnOk result (look_refused self.old worker ≡ None) }
        ensures seen { OnOk result (peek_at self.old worker ≡ Some (peek_of peek.now)) }
        ensures made { IfOk result (λ e. Makes self.old self.new (record { worker = worker; act = choices.step }) (event_of e)) }
        ensures refused { IfErr result (IsUnsettled self.old worker (peek_of peek.now)) }
        ensures unchanged { OnErr result (self.new ≡ self.old) }
    {
        if let Some(refusal) = self.look_refusal(worker) {
            return Err(refusal);
        }
        if !self.still_sees(worker, peek) {
            return Err(Refusal::Stale);
        }
        match self.plan_seen(worker, peek.n, value) {
            Ok(light) => self.settle_lightly(worker, &light),
            Err(plan) => self.settle_by_plan(worker, plan),
        }
    }

    /// Takes down what the worker sees of its step, if the expression of the action is among these, by number from 1 on: what the variables hold.
    /// It tells the number. None where it sees nothing, or where there is no such expression.
    pub fn take_down(
        &self,
        worker: u8,
        expressions: &[Option<Listed>],
        values: &mut Vec<Known>,
    ) -> Result<Option<u32>, Memory>
        ensures { IfOk result (λ o. IfSome o (λ n. IsTakenDown self.now worker n expressions.now values.new.items)) }
    {
        match self.number_ahead(worker) {
            None => Ok(None),
            Some(n) => match listed_at(expressions, n) {
                None => Ok(None),
                Some(listed) => {
                    self.take_down_by(worker, listed, values)?;
                    Ok(Some(n))
                }
            },
        }
    }

    /// Makes the choice of the worker's step by the number of its action and what was taken down, with the value of the expression over that. Where
    /// one sees something else by now, it is refused as stale. A refusal changes nothing.
    pub fn settle_taken_down(
        &mut self,
        worker: u8,
        n: u32,
        listed: &Listed,
        values: &[Known],
        value: Result<i32, Trap>,
    ) -> Result<Did, Refusal>
        requires room { self.old.choices < 2 ^ 64 - 1 }
        requires code { code_at self.old.program n ≡ Some listed.now }
        requires value { value ≡ value_of (known values.now) listed.now }
        ensures free { OnOk result (look_refused self.old worker ≡ None) }
        ensures seen { OnOk result (peek_at self.old worker ≡ Some (taken_down_at self.old worker n listed.now values.now)) }
        ensures made { IfOk result (λ did. MakesBy self.old self.new (record { worker = worker; act = choices.step }) did) }
        ensures refused { IfErr result (IsUnsettled self.old worker (taken_down_at self.old worker n listed.now values.now)) }
        ensures unchanged { OnErr result (self.new ≡ self.old) }
    {
        if let Some(refusal) = self.taken_down_refusal(worker, n, listed, values) {
            return Err(refusal);
        }
        match self.plan_seen(worker, n, value) {
            Ok(light) => match self.step_lightly(worker, light) {
                Err(_) => Err(Refusal::Memory),
                Ok(did) => Ok(did),
            },
            Err(plan) => match self.step(worker, plan) {
                Err(_) => Err(Refusal::Memory),
                Ok(did) => Ok(did),
            },
        }
    }

    /// Why the worker's step is not taken by what was taken down: the first reason that applies, want of memory left out. None where one still sees
    /// the same.
    pub fn taken_down_refusal(
        &self,
        worker: u8,
        n: u32,
        listed: &Listed,
        values: &[Known],
    ) -> Option<Refusal>
        requires { code_at self.now.program n ≡ Some listed.now }
        ensures free { IfNone result (look_refused self.now worker ≡ None) }
        ensures seen { IfNone result (peek_at self.now worker ≡ Some (taken_down_at self.now worker n listed.now values.now)) }
        ensures refused { IfSome result (λ r. (look_refused self.now worker ≡ Some r)
            ⊎ IsStale self.now worker (taken_down_at self.now worker n listed.now values.now) r) }
    {
        match self.look_refusal(worker) {
            Some(refusal) => Some(refusal),
            None => {
                if self.still_taken_down(worker, n, listed, values) {
                    None
                } else {
                    Some(Refusal::Stale)
                }
            }
        }
    }

    // The number of the action of which the worker sees something.
    fn number_ahead(&self, worker: u8) -> Option<u32>
        ensures { result ≡ number_ahead self.now worker }
    {
        match self.look_refusal(worker) {
            Some(_) => None,
            None => self.number_in_hand(worker),
        }
    }

    // The same of a worker that has a frame in its hand.
    fn number_in_hand(&self, worker: u8) -> Option<u32>
        requires worker { IsWorker self.now.machine.places worker }
        requires full { is_full self.now.machine.places worker ≡ true }
        ensures { result ≡ option_map (λ peek. peek.n) (peek_at self.now worker) }
    {
        match self.parts.hands.hand(worker) {
            None => unreachable!(),
            Some(frame) => number_ahead(&self.scene(frame)),
        }
    }

    // Takes what the variables of an expression hold for a worker that sees something of its step.
    fn take_down_by(
        &self,
        worker: u8,
        listed: &Listed,
        values: &mut Vec<Known>,
    ) -> Result<(), Memory>
        requires { IsSome (number_ahead self.now worker) }
        ensures { OnOk result (IfSome (peek_at self.now worker) (λ peek. listed.now ≡ peek.code → values.new.items ≡ peek.values)) }
    {
        match self.parts.hands.hand(worker) {
            None => unreachable!(),
            Some(frame) => take_down(&self.scene(frame), listed, values),
        }
    }

    // Whether the worker, which has a frame in its hand, sees now what was taken down.
    fn still_taken_down(&self, worker: u8, n: u32, listed: &Listed, values: &[Known]) -> bool
        requires worker { IsWorker self.now.machine.places worker }
        requires full { is_full self.now.machine.places worker ≡ true }
        requires code { code_at self.now.program n ≡ Some listed.now }
        ensures { Decides result (peek_at self.now worker ≡ Some (taken_down_at self.now worker n listed.now values.now)) }
    {
        match self.parts.hands.hand(worker) {
            None => unreachable!(),
            Some(frame) => is_still_seen(&self.scene(frame), n, listed, values),
        }
    }

    /// Why the worker's step is not taken by what was seen of it: the first reason that applies, want of memory left out. None where one still
    /// sees the same.
    pub fn settle_refusal(&self, worker: u8, peek: &Peek) -> Option<Refusal>
        ensures free { IfNone result (look_refused self.now worker ≡ None) }
        ensures seen { IfNone result (peek_at self.now worker ≡ Some (peek_of peek.now)) }
        ensures refused { IfSome result (λ r. (look_refused self.now worker ≡ Some r) ⊎ IsStale self.now worker (peek_of peek.now) r) }
    {
        match self.look_refusal(worker) {
            Some(refusal) => Some(refusal),
            None => {
                if self.still_sees(worker, peek) {
                    None
                } else {
                    Some(Refusal::Stale)
                }
            }
        }
    }

    // Whether the worker, which has a frame in its hand, sees the same now.
    fn still_sees(&self, worker: u8, peek: &Peek) -> bool
        requires worker { IsWorker self.now.machine.places worker }
        requires full { is_full self.now.machine.places worker ≡ true }
        ensures { Decides result (peek_at self.now worker ≡ Some (peek_of peek.now)) }
    {
        match self.parts.hands.hand(worker) {
            None => unreachable!(),
            Some(frame) => is_seen(&self.scene(frame), peek),
        }
    }

    // The plan of the worker's step, of which one sees the same.
    fn plan_seen(&self, worker: u8, n: u32, value: Result<i32, Trap>) -> Result<Light, Plan>
        requires worker { IsWorker self.now.machine.places worker }
        requires crew { is_worker_of (workers_of self.now) worker ≡ true }
        requires runs { runs self.now.outcome ≡ true }
        requires full { is_full self.now.machine.places worker ≡ true }
        requires seen { IsSeenAt self.now worker n value }
        ensures free { refused_by self.now (record { worker = worker; act = Act.Step }) ≡ None }
        ensures planned { plan_by result ≡ planned_in self.now worker }
    {
        match self.parts.hands.hand(worker) {
            None => unreachable!(),
            Some(frame) => plan_by_value(&self.scene(frame), n, value),
        }
    }

    // The step by its light plan.
    fn settle_lightly(&mut self, worker: u8, light: &Light) -> Result<Event, Refusal>
        requires free { refused_by self.old (record { worker = worker; act = Act.Step }) ≡ None }
        requires planned { plan_of light.now ≡ planned_in self.old worker }
        requires room { self.old.choices < 2 ^ 64 - 1 }
        ensures made { IfOk result (λ e. Makes self.old self.new (record { worker = worker; act = choices.step }) (event_of e)) }
        ensures memory { IfErr result (λ r. r ≡ Refusal.Memory) }
        ensures unchanged { OnErr result (self.new ≡ self.old) }
    {
        let plan = plan_of(*light);
        match self.event(worker, &plan) {
            Err(_) => Err(Refusal::Memory),
            Ok(event) => match self.step_lightly(worker, *light) {
                Err(_) => {
                    drop(event);
                    Err(Refusal::Memory)
                }
                Ok(_) => Ok(event),
            },
        }
    }

    // The step by a plan that is not light.
    fn settle_by_plan(&mut self, worker: u8, plan: Plan) -> Result<Event, Refusal>
        requires free { refused_by self.old (record { worker = worker; act = Act.Step }) ≡ None }
        requires planned { plan ≡ planned_in self.old worker }
        requires room { self.old.choices < 2 ^ 64 - 1 }
        ensures made { IfOk result (λ e. Makes self.old self.new (record { worker = worker; act = choices.step }) (event_of e)) }
        ensures memory { IfErr result (λ r. r ≡ Refusal.Memory) }
        ensures unchanged { OnErr result (self.new ≡ self.old) }
    {
        match self.event(worker, &plan) {
            Err(_) => Err(Refusal::Memory),
            Ok(event) => match self.step(worker, plan) {
                Err(_) => Err(Refusal::Memory),
                Ok(_) => Ok(event),
            },
        }
    }

    // The first reason why the worker has no step to look at: the program has ended, there is no such worker, or its hand is empty.
    fn look_refusal(&self, worker: u8) -> Option<Refusal>
        ensures value { result ≡ look_refused self.now worker }
        ensures worker { IfNone result (IsWorker self.now.machine.places worker) }
        ensures crew { IfNone result (is_worker_of (workers_of self.now) worker ≡ true) }
        ensures runs { IfNone result (runs self.now.outcome ≡ true) }
        ensures full { IfNone result (is_full self.now.machine.places worker ≡ true) }
    {
        if !matches!(self.outcome, Outcome::Running) {
            return Some(Refusal::Over);
        }
        if !is_worker(worker, self.workers) {
            return Some(Refusal::NoWorker);
        }
        match self.parts.hands.hand(worker) {
            None => Some(Refusal::HandEmpty),
            Some(_) => None,
        }
    }
}

// The expression of action n, counted from 1, if there is one.
fn listed_at(expressions: &[Option<Listed>], n: u32) -> Option<&Listed>
    ensures { IfSome result (λ listed. slice_get expressions.now (n - 1) ≡ Some (Some listed.now)) }
{
    match expressions.get(n.checked_sub(1)? as usize) {
        Some(Some(listed)) => Some(listed),
        _ => None,
    }
}

fn plan_of(light: Light) -> Plan
    ensures { result ≡ plan_of light }
{
    match light {
        Light::Take {
            child,
            n,
            reached,
            value,
        } => Plan::Take {
            child,
            n,
            reached,
            value,
        },
        Light::Go { n, to } => Plan::Go { n, to },
        Light::Write {
            n,
            reached,
            value,
            to,
        } => Plan::Write {
            n,
            reached,
            value,
            to,
        },
        Light::Leave { n } => Plan::Leave { n },
        Light::Answer { n, reached, value } => Plan::Answer { n, reached, value },
    }
}
