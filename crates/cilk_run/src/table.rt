//! What lies under the lock of a run, and what a worker does with it in one turn.

ghost use Rattle.std.specs.Prelude.{ℕ, ◌+◌, ◌≡◌, ◌≢◌, ◌<◌, ◌≤◌, ◌⊎◌, [], ◌∷◌, ◌++◌, length, slice_index, slice_set, ◌-◌, ◌^◌, true, Some, IfOk, IfErr};
ghost use Rattle.std.specs.Prelude.{None, IfSome, OnOk, OnErr};
ghost use Rattle.cilk_run.specs.log.syntax.ProgramText.{program_text};
ghost use Rattle.cilk_run.specs.choices.Words.{choice_of, reason_of};
ghost use Rattle.cilk_run.specs.log.Naming.{digest_of};
ghost use Rattle.cilk_run.specs.machine.Situation.{workers_of};
ghost use Rattle.cilk_run.specs.machine.Made.{IsRefused};
ghost use Rattle.cilk_run.specs.machine.eval.Known.{known};
ghost use Rattle.cilk_run.specs.labelled.Value.{value_of};
ghost use Rattle.cilk_run.specs.step.Peeks.{code_at};
ghost use Rattle.cilk_run.specs.Histories.{IsCounted};
ghost use Rattle.cilk_run.specs.Runs.{IsRun, Stops};
ghost use Rattle.cilk_run.specs.Turning.{IsTurn, IsBegun, IsOver, is_broken};

use crate::ahead::Ahead;
use crate::ended::closing;
use crate::post::{Begun, TurnEnd};
use crate::run_lists::ChoiceCounts;
use crate::run_result::{Run, RunFault};
use cilk_run_locked::{
    Act, Choice, Known, Listed, Loaded, Locked, Log, Memory, Outcome, Refusal, Trap, program_of,
};
use std::alloc::Global;
use std::marker::{Brand, Model, PhantomData};

/// The program, the number of workers and the greatest number of choices that a run is of. They are named once, so that they are the same
/// each time that the lock is got.
pub trait Setting {
    ghost use Rattle.std.specs.Prelude.{ℕ};
    ghost use Rattle.cilk_run.specs.syntax.Tree.{Program};

    ghost program: { Program };

    ghost workers: { ℕ };

    ghost limit: { ℕ };
}

// What a call that passes `Brand` has in place of a run until its proof picks one, as that of `run_on` does: these values are of no run.
impl Setting for Brand {
    ghost use Rattle.std.specs.Prelude.{[]};

    ghost program = { record { headers = []; items = []; length = 0 } };

    ghost workers = { 0 };

    ghost limit = { 0 };
}

/// What the workers of a run take turns at, under a mutex where there are several: the machine with its history (`Locked`), the number of choices that
/// each made, and why all are to end, if they are. It is none of the tables of a program.
#[derive(Drop)]
pub struct Table<J: Setting> {
    locked: Locked,
    /// The digest of the program's canonical text.
    digest: [u8; 32],
    workers: u8,
    limit: u32,
    /// How many choices each worker made.
    turns: Vec<u64>,
    /// A worker met want of memory.
    is_short: bool,
    /// All were told to end.
    is_stopped: bool,
    of: PhantomData<J>,
}

impl<J: Setting> Model for Table<J> {
    ghost use Rattle.std.specs.Prelude.{◌≡◌, ◌≤◌, length};
    ghost use Rattle.cilk_run.specs.machine.Situation.{workers_of};
    ghost use Rattle.cilk_run.specs.Histories.{Posted, IsCounted};
    ghost use Rattle.cilk_run.specs.log.syntax.ProgramText.{program_text};
    ghost use Rattle.cilk_run.specs.log.Naming.{digest_of};
    ghost use Rattle.cilk_run.specs.syntax.ProgramCoding.{coded_Program};
    ghost use Rattle.std.specs.Coded.{codes};

    ghost Value = { Posted };

    ghost coded = { Prim.hlevel (codes, coded_Program) };

    ghost view = { λ t. record { machine = t.locked.machine; history = t.locked.history; short = t.is_short; stopped = t.is_stopped } };

    ghost invariant = { λ t. (t.locked.machine.program ≡ J.program)
        × (workers_of t.locked.machine ≡ J.workers) × (t.workers ≡ J.workers) × (t.limit ≡ J.limit)
        × (length t.locked.history ≤ J.limit) × IsCounted J.workers t.turns.items t.locked.history
        × (t.digest ≡ digest_of (program_text J.program)) };
}

impl<J: Setting> Table<J> {
    /// A machine before any choice, for a run of so many workers that make at most `limit` choices. The program's digest is made here, once.
    pub fn new(alloc: Global, locked: Locked, workers: u8, limit: u32) -> Result<Table<J>, RunFault>
        requires program { locked.machine.program ≡ J.program }
        requires crew { workers_of locked.machine ≡ J.workers }
        requires workers { workers ≡ J.workers }
        requires limit { limit ≡ J.limit }
        requires none { locked.history ≡ [] }
        ensures err { IfErr result (λ e. e ≡ RunFault.Memory) }
    {
        let Ok(digest) = digest_of_program(locked.machine().loaded()) else {
            return Err(RunFault::Memory);
        };
        let Ok(turns) = vec![in alloc; 0u64; usize::from(workers)] else {
            return Err(RunFault::Memory);
        };
        Ok(Table {
            locked,
            digest,
            workers,
            limit,
            turns,
            is_short: false,
            is_stopped: false,
            of: PhantomData,
        })
    }

    /// What a worker does in a turn: a step of what is in its hand, or else it takes from its own deque, or else from that of the first worker
    /// behind it, in a circle, whose deque is not empty. Nothing where the run is over.
    #[inline(always)]
    pub fn take_turn(&mut self, worker: u8) -> TurnEnd
        ensures turn { IsTurn J.limit worker self.old result self.new }
        ensures broken { is_broken self.old ≡ true → result ≡ TurnEnd.Stop }
        ensures limit { J.limit ≤ length self.old.history → result ≡ TurnEnd.Stop }
    {
        if self.is_over() {
            return TurnEnd::Stop;
        }
        match self.advance(worker, Act::Step) {
            Ok(()) => TurnEnd::Made,
            Err(Refusal::HandEmpty) => self.take_up(worker),
            Err(refusal) => self.stay(refusal),
        }
    }

    /// The first half of a turn of a worker that leaves the lock in between. `expressions` has for each action, from 1 on, the expression that may be
    /// evaluated without the lock, where there is one. Where the worker's step evaluates such a one, it is not made: `values` has then what its
    /// variables hold, and the number of the action is told. Else this is a whole turn.
    #[inline(always)]
    pub fn begin_turn(
        &mut self,
        worker: u8,
        expressions: &[Option<Listed>],
        values: &mut Vec<Known>,
    ) -> Begun
        ensures { IsBegun J.limit worker self.old result self.new }
    {
        if expressions.is_empty() {
            Begun::Over(self.take_turn(worker))
        } else {
            self.look(worker, expressions, values)
        }
    }

    #[inline(never)]
    fn look(&mut self, worker: u8, expressions: &[Option<Listed>], values: &mut Vec<Known>) -> Begun
        ensures { IsBegun J.limit worker self.old result self.new }
    {
        if self.is_over() {
            return Begun::Over(TurnEnd::Stop);
        }
        match self.locked.machine().take_down(worker, expressions, values) {
            Ok(Some(n)) => Begun::Seen(n),
            Ok(None) => Begun::Over(self.take_turn(worker)),
            Err(_) => Begun::Over(self.stay(Refusal::Memory)),
        }
    }

    /// The rest of such a turn, with the value of the expression of action n over what was taken down: the step by it, and a turn as any where one
    /// sees something else by now.
    pub fn end_turn(
        &mut self,
        worker: u8,
        n: u32,
        listed: &Listed,
        values: &[Known],
        value: Result<i32, Trap>,
    ) -> TurnEnd
        requires code { code_at J.program n ≡ Some listed.now }
        requires value { value ≡ value_of (known values.now) listed.now }
        ensures turn { IsTurn J.limit worker self.old result self.new }
        ensures broken { is_broken self.old ≡ true → result ≡ TurnEnd.Stop }
        ensures limit { J.limit ≤ length self.old.history → result ≡ TurnEnd.Stop }
    {
        if self.is_over() {
            return TurnEnd::Stop;
        }
        match self.settle_taken_down(worker, n, listed, values, value) {
            Ok(()) => TurnEnd::Made,
            Err(Refusal::Memory) => self.stay(Refusal::Memory),
            Err(_) => self.take_turn(worker),
        }
    }

    // Whether all are to end, the program has ended, or the limit is reached.
    #[inline(always)]
    fn is_over(&self) -> bool
        ensures over { result ≡ true → IsOver J.limit self.now }
        ensures broken { is_broken self.now ≡ true → result ≡ true }
        ensures limit { J.limit ≤ length self.now.history → result ≡ true }
    {
        self.is_stopped || self.is_short || self.is_spent()
    }

    // Whether the program has ended, or the limit is reached.
    #[inline(always)]
    fn is_spent(&self) -> bool
        ensures stops { result ≡ true → Stops J.limit self.now.machine }
        ensures limit { J.limit ≤ length self.now.history → result ≡ true }
    {
        let made = self.locked.history().len();
        made >= self.limit as usize || !matches!(self.locked.machine().outcome(), Outcome::Running)
    }

    // A turn with an empty hand.
    #[inline(never)]
    fn take_up(&mut self, worker: u8) -> TurnEnd
        requires { length self.old.history < J.limit }
        ensures { IsTurn J.limit worker self.old result self.new }
    {
        match self.advance(worker, Act::Pop) {
            Ok(()) => TurnEnd::Made,
            Err(Refusal::DequeEmpty) => self.steal(worker),
            Err(refusal) => self.stay(refusal),
        }
    }

    // A turn with nothing in the hand and the deque.
    fn steal(&mut self, worker: u8) -> TurnEnd
        requires { length self.old.history < J.limit }
        ensures { IsTurn J.limit worker self.old result self.new }
    {
        let workers = self.workers;
        match self.steal_from(worker, worker, workers) {
            Some(end) => end,
            None => match self.steal_from(worker, 0, worker.saturating_sub(1)) {
                Some(end) => end,
                None => self.stay(Refusal::DequeEmpty),
            },
        }
    }

    // A turn with what the first of the workers behind number `from`, up to number `to`, has whose deque is not empty. None where all are.
    fn steal_from(&mut self, worker: u8, from: u8, to: u8) -> Option<TurnEnd>
        requires { length self.old.history < J.limit }
        ensures turn { IfSome result (λ end. IsTurn J.limit worker self.old end self.new) }
        ensures unchanged { result ≡ None → self.new ≡ self.old }
    {
        for before in from..to {
            match self.advance(worker, Act::Steal(before + 1)) {
                Ok(()) => return Some(TurnEnd::Made),
                Err(Refusal::DequeEmpty) => {}
                Err(refusal) => return Some(self.stay(refusal)),
            }
        }
        None
    }

    // A turn in which the last thing that was tried was refused so.
    #[inline(never)]
    fn stay(&mut self, refusal: Refusal) -> TurnEnd
        ensures turn { (w : ℕ) → IsTurn J.limit w self.old result self.new }
        ensures made { result ≢ TurnEnd.Made }
    {
        if matches!(refusal, Refusal::Memory) {
            self.is_short = true;
            return TurnEnd::Stop;
        }
        if self.locked.machine().is_stuck() {
            return TurnEnd::Stop;
        }
        TurnEnd::Idle
    }

    // Makes a choice, and counts it. A worker that the run does not have is refused here, though the machine would refuse it too: `count` has to know
    // that `turns` has an entry for it. The workers of a run are 1 to `workers`, so it never comes to that.
    #[inline(always)]
    fn advance(&mut self, worker: u8, act: Act) -> Result<(), Refusal>
        requires { length self.old.history < J.limit }
        ensures history { OnOk result (self.new.history ≡ self.old.history ++ record { worker = worker; act = act } ∷ []) }
        ensures flags { (self.new.short ≡ self.old.short) × (self.new.stopped ≡ self.old.stopped) }
        ensures unchanged { OnErr result (self.new ≡ self.old) }
    {
        if worker == 0 || worker > self.workers {
            return Err(Refusal::NoWorker);
        }
        self.locked.advance(Choice { worker, act })?;
        count(&mut self.turns, worker);
        Ok(())
    }

    // Makes the choice of a step by what was taken down of it, and counts it. Of workers as above.
    fn settle_taken_down(
        &mut self,
        worker: u8,
        n: u32,
        listed: &Listed,
        values: &[Known],
        value: Result<i32, Trap>,
    ) -> Result<(), Refusal>
        requires room { length self.old.history < J.limit }
        requires code { code_at J.program n ≡ Some listed.now }
        requires value { value ≡ value_of (known values.now) listed.now }
        ensures history { OnOk result (self.new.history ≡ self.old.history ++ record { worker = worker; act = Act.Step } ∷ []) }
        ensures flags { (self.new.short ≡ self.old.short) × (self.new.stopped ≡ self.old.stopped) }
        ensures unchanged { OnErr result (self.new ≡ self.old) }
    {
        if worker == 0 || worker > self.workers {
            return Err(Refusal::NoWorker);
        }
        self.locked
            .settle_taken_down(worker, n, listed, values, value)?;
        count(&mut self.turns, worker);
        Ok(())
    }

    /// What the workers may evaluate while they do not have it.
    pub fn ahead(&self, alloc: Global) -> Result<Ahead<J>, RunFault>
        ensures { IfErr result (λ e. e ≡ RunFault.Memory) }
    {
        match Ahead::new(alloc, self.locked.machine().loaded()) {
            Err(_) => Err(RunFault::Memory),
            Ok(ahead) => Ok(ahead),
        }
    }

    /// From now on no turn makes a choice.
    pub fn end_all(&mut self)
        ensures { self.new ≡ record self.old { stopped = true } }
    {
        self.is_stopped = true;
    }

    /// Whether a worker met want of memory.
    pub fn is_short(&self) -> bool
        ensures { result ≡ self.now.short }
    {
        self.is_short
    }

    /// Whether the run is over: the program has ended, the limit is reached, or no one can move. Not whether all were told to end, or memory ran out.
    pub fn has_ended(&self) -> bool
        ensures { result ≡ true → Stops J.limit self.now.machine }
    {
        self.is_spent() || self.locked.machine().is_stuck()
    }

    /// The run, once it is over.
    pub fn into_run(self, alloc: Global) -> Result<Run, RunFault>
        requires { Stops J.limit self.machine }
        ensures ok { IfOk result (λ r. IsRun J.program J.workers J.limit r) }
        ensures err { IfErr result (λ e. e ≡ RunFault.Memory) }
    {
        let Ok((end, output)) = closing(alloc, self.locked.machine()) else {
            return Err(RunFault::Memory);
        };
        let Table {
            locked,
            digest,
            workers,
            turns,
            ..
        } = self;
        let log = Log {
            program: Some(digest),
            workers,
            choices: locked.into_choices(),
        };
        Ok(Run {
            end,
            log,
            output,
            turns: ChoiceCounts::new(turns),
        })
    }
}

/// The digest of the program's canonical text, by which a log names it.
pub fn digest_of_program(program: &Loaded) -> Result<[u8; 32], Memory>
    ensures { IfOk result (λ digest. digest ≡ digest_of (program_text program.now)) }
{
    match program.text() {
        Err(memory) => Err(memory),
        Ok(text) => Ok(program_of(text.as_str())),
    }
}

// Counts a choice of a worker.
#[inline(always)]
pub(crate) fn count(turns: &mut Vec<u64>, worker: u8)
    requires worker { 0 < worker }
    requires there { worker - 1 < length turns.old.items }
    requires room { slice_index turns.old.items (worker - 1) < 2 ^ 64 - 1 }
    ensures { turns.new.items ≡ slice_set turns.old.items (worker - 1) (slice_index turns.old.items (worker - 1) + 1) }
{
    turns[usize::from(worker) - 1] += 1;
}
