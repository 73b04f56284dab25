//! What a machine is made of, and what it tells between two choices: its outcome, output, variables, fates and end.

ghost use Rattle.std.specs.Prelude.{◌≡◌, ◌<◌, ◌≤◌, ◌⊎◌, ◌↔◌, true, false, List, [], option_map, IfOk};
ghost use Rattle.cilk_machine_undo.specs.labelled.Bodies.{label};
ghost use Rattle.cilk_sched.specs.model.Choice as choices;
ghost use Rattle.cilk_sched.specs.model.End as model;
ghost use Rattle.cilk_sched.specs.model.Event as events;
ghost use Rattle.cilk_sched.specs.model.Fate.{fate_of};
ghost use Rattle.cilk_sched.specs.model.Run.{Standing};
ghost use Rattle.cilk_machine_undo.specs.agree.Fated.{fate_named};
ghost use Rattle.cilk_machine_undo.specs.spawn.Nodes.{node_at};
ghost use Rattle.cilk_sched.specs.Words.{end_of, outcome_of};
ghost use Rattle.cilk_view.specs.Shows.{machine_of};
ghost use Rattle.cilk_machine.specs.Situation.{workers_of};
ghost use Rattle.cilk_machine.specs.Stands.{Led, StandsAt, Opens};
ghost use Rattle.cilk_machine.specs.Globals.{global_of};

mod ahead;
mod comparing;
mod digesting;
mod idling;
mod imaging;
mod looking;
mod making;
mod returning;
mod undoing;
mod unseen;

use crate::keeping::no_records;
use crate::opening::first_parts;
use crate::reading::cell_of;
use cilk_machine_step::Loaded;
use cilk_machine_undo::{Fate, Id, Parts, Program, Undo};
use cilk_sched::{End, MachineFault, Memory, Outcome};
use cilk_view::Shown;
use std::alloc::Global;
use std::marker::Model;

/// A program that runs, moved by one choice at a time.
pub struct Machine {
    alloc: Global,
    loaded: Loaded,
    parts: Parts,
    workers: u8,
    outcome: Outcome,
    /// The instance that was trapped, which contracts alone read.
    trapper: Id,
    choices: u64,
    /// Whether a record is kept of each choice.
    keeps: bool,
    /// The records, in the order of their choices.
    records: Vec<Undo>,
}

// To drop it elsewhere is to call this, and its fields' drops are proved here alone.
impl Drop for Machine {
    fn drop(self) {
        let Machine {
            alloc: _,
            loaded: _loaded,
            parts: _parts,
            workers: _,
            outcome: _outcome,
            trapper: _,
            choices: _,
            keeps: _,
            records: _records,
        } = self;
    }
}

impl Model for Machine {
    ghost use Rattle.std.specs.Prelude.{vec_len, vec_capacity};
    ghost use Rattle.cilk_machine.specs.Situation.{Situation};
    ghost use Rattle.cilk_machine.specs.Pasts.{kept_of, situation_of};
    ghost use Rattle.cilk_machine.specs.Kept.{IsWhole};
    ghost use Rattle.cilk_machine_undo.specs.syntax.ProgramCoding.{coded_Program};
    ghost use Rattle.std.specs.Coded.{codes};

    ghost Value = { Situation };

    ghost coded = { Prim.hlevel (codes, coded_Program) };

    ghost view = { λ m. situation_of m.loaded m.parts m.trapper m.outcome m.choices m.keeps (kept_of m.records.items) };

    ghost invariant = { λ m.
        IsWhole m.loaded m.parts m.trapper m.outcome m.choices m.keeps (kept_of m.records.items) m.workers (vec_len m.records) (vec_capacity m.records) };
}

impl Machine {
    /// A program before any choice: worker 1 has the root in its hand. There are 1 to 64 workers.
    pub fn new(alloc: Global, loaded: Loaded, workers: u8) -> Result<Machine, MachineFault>
        ensures workers { (result ≡ Err MachineFault.Workers) ↔ ((workers ≡ 0) ⊎ (64 < workers)) }
        ensures program { IfOk result (λ m. m.program ≡ loaded) }
        ensures crew { IfOk result (λ m. workers_of m ≡ workers) }
        ensures choices { IfOk result (λ m. m.choices ≡ 0) }
        ensures opening { IfOk result Opens }
        ensures keeps { IfOk result (λ m. m.keeps ≡ false) }
        ensures past { IfOk result (λ m. m.past ≡ []) }
    {
        Machine::begun(alloc, loaded, workers, false)
    }

    /// The same, and from then on a record is kept of each choice, by which `undo` takes it back.
    pub fn with_undo(alloc: Global, loaded: Loaded, workers: u8) -> Result<Machine, MachineFault>
        ensures workers { (result ≡ Err MachineFault.Workers) ↔ ((workers ≡ 0) ⊎ (64 < workers)) }
        ensures program { IfOk result (λ m. m.program ≡ loaded) }
        ensures crew { IfOk result (λ m. workers_of m ≡ workers) }
        ensures choices { IfOk result (λ m. m.choices ≡ 0) }
        ensures opening { IfOk result Opens }
        ensures keeps { IfOk result (λ m. m.keeps ≡ true) }
        ensures past { IfOk result (λ m. m.past ≡ []) }
    {
        Machine::begun(alloc, loaded, workers, true)
    }

    fn begun(
        alloc: Global,
        loaded: Loaded,
        workers: u8,
        keeps: bool,
    ) -> Result<Machine, MachineFault>
        ensures workers { (result ≡ Err MachineFault.Workers) ↔ ((workers ≡ 0) ⊎ (64 < workers)) }
        ensures program { IfOk result (λ m. m.program ≡ loaded) }
        ensures crew { IfOk result (λ m. workers_of m ≡ workers) }
        ensures choices { IfOk result (λ m. m.choices ≡ 0) }
        ensures opening { IfOk result Opens }
        ensures keeps { IfOk result (λ m. m.keeps ≡ keeps) }
        ensures past { IfOk result (λ m. m.past ≡ []) }
    {
        if workers == 0 || 64 < workers {
            return Err(MachineFault::Workers);
        }
        match Machine::opened(alloc, loaded, workers, keeps) {
            Err(memory) => Err(MachineFault::Memory(memory)),
            Ok(machine) => Ok(machine),
        }
    }

    fn opened(alloc: Global, loaded: Loaded, workers: u8, keeps: bool) -> Result<Machine, Memory>
        requires some { 1 ≤ workers }
        requires limit { workers ≤ 64 }
        ensures program { IfOk result (λ m. m.program ≡ loaded) }
        ensures crew { IfOk result (λ m. workers_of m ≡ workers) }
        ensures choices { IfOk result (λ m. m.choices ≡ 0) }
        ensures opening { IfOk result Opens }
        ensures keeps { IfOk result (λ m. m.keeps ≡ keeps) }
        ensures past { IfOk result (λ m. m.past ≡ []) }
    {
        // Brings its clauses into the proof.
        let _program = loaded.program();
        let records = match no_records(alloc, keeps) {
            Ok(records) => records,
            Err(memory) => {
                drop(loaded);
                return Err(memory);
            }
        };
        let parts = match first_parts(alloc, &loaded, workers) {
            Ok(parts) => parts,
            Err(memory) => {
                drop(records);
                drop(loaded);
                return Err(memory);
            }
        };
        Ok(Machine {
            alloc,
            loaded,
            parts,
            workers,
            outcome: Outcome::Running,
            trapper: Id::new(0),
            choices: 0,
            keeps,
            records,
        })
    }

    pub(crate) fn allocator(&self) -> Global {
        self.alloc
    }

    /// The parts that views show.
    pub(crate) fn shown<'a>(&'a self) -> Shown<'a>
        ensures program { result.loaded.now ≡ self.now.program }
        ensures parts { machine_of result self.now.machine.outside.outcome ≡ self.now.machine }
        ensures workers { result.workers ≡ workers_of self.now }
    {
        Shown {
            loaded: &self.loaded,
            globals: self.parts.globals.as_slice(),
            locks: self.parts.locks.as_slice(),
            output: self.parts.output.as_slice(),
            tree: &self.parts.tree,
            hands: &self.parts.hands,
            workers: self.workers,
        }
    }

    /// The program's tree.
    pub fn program(&self) -> &Program
        ensures { result.now ≡ self.now.program }
    {
        self.loaded.program()
    }

    /// The program with its tables.
    pub fn loaded(&self) -> &Loaded
        ensures { result.now ≡ self.now.program }
    {
        &self.loaded
    }

    /// How many choices were made: so many possible ones led here from the start of the program.
    pub fn choices(&self) -> u64
        ensures value { result ≡ self.now.choices }
        ensures led { (at : Standing) × StandsAt self.now at }
    {
        self.choices
    }

    /// Whether the program has ended, and how.
    pub fn outcome(&self) -> &Outcome
        ensures value { result.now ≡ self.now.outcome }
        ensures stands { (at : Standing) → StandsAt self.now at → outcome_of result.now ≡ at.state.outcome }
    {
        &self.outcome
    }

    /// What the program printed.
    pub fn output(&self) -> &[u8]
        ensures { (at : Standing) → StandsAt self.now at → result.now ≡ at.state.output }
    {
        self.parts.output.as_slice()
    }

    /// A cell of a variable of the top level, counted from 0: 0 is the one cell of a variable that
    /// is no array. None where the program has no such variable or that has no such cell.
    pub fn global(&self, name: &str, index: u32) -> Option<i32>
        ensures { (at : Standing) → StandsAt self.now at → result ≡ global_of (label self.now.program) at.state name.now index }
    {
        cell_of(
            self.loaded.globals(),
            self.parts.globals.as_slice(),
            name,
            index,
        )
    }

    /// What became of the instance of this path, whether it lives or not. None where no such
    /// instance was ever made. It needs no memory.
    pub fn fate(&self, path: &[u32]) -> Option<Fate>
        ensures { (choices : List choices.Choice) (events : List events.Event) (at : Standing) → Led self.now choices events at
            → option_map fate_named result ≡ fate_of events path.now }
    {
        match self.parts.tree.find(path) {
            None => None,
            Some(id) => Some(self.parts.tree.fate(id)),
        }
    }

    /// Who spawned the instance of this id. The root has no parent, and neither has an id that no instance has.
    pub fn parent(&self, id: Id) -> Option<Id>
        ensures { result ≡ (node_at self.now.machine.nodes id).parent }
    {
        if id.number() < self.parts.tree.next_id().number() {
            self.parts.tree.parent(id)
        } else {
            None
        }
    }

    /// How the program stands.
    pub fn end_now(&self) -> Result<End, Memory>
        ensures { IfOk result (λ end. (at : Standing) → StandsAt self.now at → end_of end ≡ model.end_now (label self.now.program) at) }
    {
        match &self.outcome {
            Outcome::Finished(value) => Ok(End::Finished(*value)),
            Outcome::Trapped { kind, path, n } => Ok(End::Trapped {
                kind: *kind,
                path: path.copy(self.alloc)?,
                n: *n,
                line: self.loaded.line_of(*n).unwrap_or(0),
            }),
            Outcome::Running if self.is_stuck() => Ok(End::Stuck),
            Outcome::Running => Ok(End::Limit),
        }
    }
}
