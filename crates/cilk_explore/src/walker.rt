//! A machine that goes from one log to another, back to where they part and on from there.

ghost use Rattle.std.specs.Prelude.{◌≡◌, ◌≢◌, ◌<◌, ◌≤◌, ◌-◌, ◌++◌, ◌∷◌, [], true, false, length, map, take, Ok, Some, None, IfNone, IfOk, IfSome};
ghost use Rattle.std.specs.Prelude.{OnErr, OnOk, slice_get};
ghost use Rattle.cilk_machine.specs.labelled.Bodies.{label};
ghost use Rattle.cilk_machine.specs.model.Run.{Position, after};
ghost use Rattle.cilk_machine.specs.sched.Words.{choice_of, end_of};
ghost use Rattle.cilk_explore.specs.explore.Ending.{is_last, IsOver};
ghost use Rattle.cilk_explore.specs.explore.Names.{SameButNames};
ghost use Rattle.cilk_explore.specs.explore.OrMore.{IsIdle, HasIdle};
ghost use Rattle.cilk_explore.specs.Walks.{position_of};
ghost use Rattle.cilk_explore.specs.Telling.{EndsBy};

use crate::tag::Tag;
use cilk_machine::{Choice, End, Loaded, Machine, MachineFault, Memory, Refusal, Touched};
use std::alloc::{AllocError, Global};
use std::marker::Model;

/// A machine with the choices that led to it, and a record of each.
pub(crate) struct Walker {
    machine: Machine,
    log: Vec<Choice>,
}

// To drop it elsewhere is to call this, and its fields' drops are proved here alone.
impl Drop for Walker {
    fn drop(self) {
        let Walker {
            machine: _machine,
            log: _log,
        } = self;
    }
}

impl Model for Walker {
    ghost use Rattle.std.specs.Prelude.{map};
    ghost use Rattle.cilk_machine.specs.sched.Words.{choice_of};
    ghost use Rattle.cilk_machine.specs.syntax.ProgramCoding.{coded_Program};
    ghost use Rattle.std.specs.Coded.{codes};
    ghost use Rattle.cilk_explore.specs.Walks.{Walk, walk_of, IsWalk};

    ghost Value = { Walk };

    ghost coded = { Prim.hlevel (codes, coded_Program) };

    ghost view = { λ w. walk_of w.machine w.log.items };

    ghost invariant = { λ w. IsWalk w.machine (map choice_of w.log.items) };
}

impl Walker {
    /// Before any choice of a program, by 1 to 64 workers.
    pub fn new(alloc: Global, program: &Loaded, workers: u8) -> Result<Walker, Memory>
        ensures { IfOk result (λ w. w ≡ record { program = program.now; workers = workers; log = [] }) }
    {
        match program.copy() {
            Err(memory) => Err(memory),
            Ok(copy) => match Machine::with_undo(alloc, copy, workers) {
                Err(MachineFault::Workers) => Err(Memory::from(AllocError)),
                Err(MachineFault::Memory(memory)) => Err(memory),
                Ok(machine) => Ok(Walker {
                    machine,
                    log: Vec::new(alloc),
                }),
            },
        }
    }

    /// The choices that led here.
    pub fn log(&self) -> &[Choice]
        ensures value { map choice_of result.now ≡ self.now.log }
        ensures leads { (at : Position) × (position_of self.now ≡ Some at) }
    {
        // Brings its clauses into the proof.
        let _machine = &self.machine;
        self.log.as_slice()
    }

    /// How many choices led here.
    pub fn len(&self) -> usize
        ensures { result ≡ length self.now.log }
    {
        self.log.len()
    }

    /// Makes one choice more. False where it is not possible.
    pub fn make(&mut self, choice: Choice) -> Result<bool, Memory>
        ensures made { result ≡ Ok true → self.new ≡ record self.old { log = self.old.log ++ choice_of choice ∷ [] } }
        ensures refused { result ≡ Ok false → self.new ≡ self.old }
        ensures impossible { result ≡ Ok false → after (label self.old.program) self.old.workers (self.old.log ++ choice_of choice ∷ []) ≡ None }
        ensures same { OnErr result (self.new ≡ self.old) }
    {
        if self.machine.choices() == u64::MAX {
            return Err(Memory::from(AllocError));
        }
        match self.log.reserve(1) {
            Err(_) => Err(Memory::from(AllocError)),
            Ok(()) => match self.machine.advance(choice) {
                Ok(_) => {
                    self.log.push_reserved(choice);
                    Ok(true)
                }
                Err(why) => {
                    if is_memory(why) {
                        return Err(Memory::from(AllocError));
                    }
                    Ok(false)
                }
            },
        }
    }

    /// Takes the last choice back.
    pub fn back(&mut self) -> Result<(), Memory>
        requires { 0 < length self.old.log }
        ensures back { OnOk result (self.new ≡ record self.old { log = take (length self.old.log - 1) self.old.log }) }
        ensures same { OnErr result (self.new ≡ self.old) }
    {
        match self.machine.undo() {
            Err(memory) => Err(memory),
            Ok(false) => unreachable!(),
            Ok(true) => {
                let _choice = self.log.pop();
                Ok(())
            }
        }
    }

    /// Takes so many choices back, and makes these then. Where memory has run out, it stands somewhere on the way.
    pub fn go_by(&mut self, back: usize, tail: &[Choice]) -> Result<(), Memory>
        requires { back ≤ length self.old.log }
        ensures there { OnOk result (self.new.log ≡ take (length self.old.log - back) self.old.log ++ map choice_of tail.now) }
        ensures program { self.new.program ≡ self.old.program }
        ensures workers { self.new.workers ≡ self.old.workers }
    {
        let count = self.len() - back;
        match self.back_to(count) {
            Err(memory) => Err(memory),
            Ok(()) => self.go_on(tail),
        }
    }

    // Takes choices back until these many are made.
    fn back_to(&mut self, count: usize) -> Result<(), Memory>
        requires { count ≤ length self.old.log }
        ensures there { OnOk result (self.new.log ≡ take count self.old.log) }
        ensures program { self.new.program ≡ self.old.program }
        ensures workers { self.new.workers ≡ self.old.workers }
    {
        while count < self.len() {
            match self.back() {
                Err(memory) => return Err(memory),
                Ok(()) => {}
            }
        }
        Ok(())
    }

    // Makes these choices.
    fn go_on(&mut self, tail: &[Choice]) -> Result<(), Memory>
        ensures there { OnOk result (self.new.log ≡ self.old.log ++ map choice_of tail.now) }
        ensures program { self.new.program ≡ self.old.program }
        ensures workers { self.new.workers ≡ self.old.workers }
    {
        for i in 0..tail.len() {
            match self.make(choice_at(tail, i)) {
                Ok(true) => {}
                // Each choice of a log that was found is possible.
                Ok(false) => return Err(Memory::from(AllocError)),
                Err(memory) => return Err(memory),
            }
        }
        Ok(())
    }

    /// Whether both stand at the same, as far as what follows can depend on it, but for the names of the workers. The other is of the same program.
    pub fn is_same_but_names(&self, other: &Walker) -> bool
        requires { other.now.program ≡ self.now.program }
        ensures { result ≡ true → (a b : Position) → position_of self.now ≡ Some a → position_of other.now ≡ Some b
            → SameButNames a.standing b.standing }
    {
        self.machine.is_same_but_names(&other.machine)
    }

    /// Whether some worker has nothing in its hand and its deque.
    pub fn has_idle(&self) -> bool
        ensures { result ≡ true → (at : Position) → position_of self.now ≡ Some at → HasIdle at.standing }
    {
        self.machine.has_idle()
    }

    /// Whether that worker has nothing in its hand and its deque.
    pub fn is_idle(&self, worker: u8) -> bool
        ensures { result ≡ true → (at : Position) → position_of self.now ≡ Some at → IsIdle at.standing worker }
    {
        self.machine.is_idle(worker)
    }

    /// Numbers that are the same where both stand at the same, but for the names of the workers. They promise nothing.
    pub fn tag(&self) -> Tag {
        self.tag_by(self.machine.mixed())
    }

    fn tag_by(&self, mixed: u32) -> Tag {
        Tag {
            digest: self.machine.digest(mixed),
            mixed,
        }
    }

    /// What a choice touches, by which `tag_behind` finds the numbers behind it.
    pub fn touched(&self, choice: Choice) -> Touched {
        self.machine.touched(choice)
    }

    /// The same numbers, by what the last choice touched and what all that lives came to before it.
    pub fn tag_behind(&self, touched: Touched, before: u32) -> Tag {
        self.tag_by(self.machine.mixed_behind(touched, before))
    }

    /// How the program ends here, where no choice is possible, and None where one is.
    pub fn ending(&self) -> Result<Option<End>, Memory>
        ensures ends { IfOk result (λ o. IfSome o (EndsBy self.now)) }
        ensures goes { IfOk result (λ o. IfNone o ((at : Position) → position_of self.now ≡ Some at → ¬ IsOver (label self.now.program) at.standing)) }
    {
        // Brings its clauses into the proof.
        let _log = &self.log;
        match self.machine.end_now() {
            Err(memory) => Err(memory),
            Ok(end) => Ok(last(end)),
        }
    }

    /// What was printed.
    pub fn output(&self) -> &[u8]
        ensures { (at : Position) → position_of self.now ≡ Some at → result.now ≡ at.standing.state.output }
    {
        self.machine.output()
    }
}

fn choice_at(log: &[Choice], i: usize) -> Choice
    requires { i < length log.now }
    ensures { slice_get log.now i ≡ Some result }
{
    log[i]
}

// Whether memory had run out, and the program's own rules refused nothing.
fn is_memory(why: Refusal) -> bool
    ensures { result ≡ false → why ≢ Refusal.Memory }
{
    matches!(why, Refusal::Memory)
}

// An end at which no choice is possible.
fn last(end: End) -> Option<End>
    ensures some { IfSome result (λ e. (e ≡ end) × (is_last (end_of e) ≡ true)) }
    ensures none { IfNone result (is_last (end_of end) ≡ false) }
{
    match end {
        End::Limit => None,
        End::Stuck => Some(End::Stuck),
        End::Finished(value) => Some(End::Finished(value)),
        End::Trapped {
            kind,
            path,
            n,
            line,
        } => Some(End::Trapped {
            kind,
            path,
            n,
            line,
        }),
    }
}
