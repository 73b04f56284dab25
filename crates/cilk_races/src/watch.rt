//! A machine that makes the choices of a schedule again, with the accesses of the run.

ghost use Rattle.std.specs.Prelude.{◌≡◌, ◌<◌, ◌∷◌, ◌++◌, ◌^◌, ℕ, List, suc, [], length, map, slice_get, option_copied, IfErr, IfOk, OnOk};
ghost use Rattle.std.specs.List.{All};
ghost use Rattle.cilk_log_replay.specs.machine.agree.scopes.WellFormed.{WellFormed};
ghost use Rattle.cilk_log_replay.specs.machine.sched.Words.{choice_of};
ghost use Rattle.cilk_log_replay.specs.Tape.{Tape, IsAt};
ghost use Rattle.cilk_log_replay.specs.ReplayFaults.{IsFaultOf};
ghost use Rattle.cilk_races.specs.Tallies.{first};
ghost use Rattle.cilk_races.specs.Line.{Line, no_line};
ghost use Rattle.cilk_races.specs.Paired.{touches_of};
ghost use Rattle.cilk_log_replay.specs.machine.step.Shown.{held, touched};
ghost use Rattle.cilk_log_replay.specs.machine.step.CellWords.{told};
ghost use Rattle.cilk_log_replay.specs.machine.step.plan.StepInput.{id_of, own_node};
ghost use Rattle.cilk_log_replay.specs.machine.step.Scenes.{HeadFits, input_of};
ghost use Rattle.cilk_races.specs.Looked.{AdvancesWatch, IsNothing, LooksAt};
ghost use Rattle.cilk_races.specs.Noted.{ArePlaced, IsNoted, KeepsTouches, KnowsTouch, number_of, placed_by, touch_by};

use crate::look::Look;
use crate::motion::{Motion, motion_of};
use crate::note_rows::note_rows;
use crate::rows::Rows;
use crate::tally::Tally;
use crate::touch::{Placed, Touch};
use cilk_log_replay::{
    Access, Act, Choice, Did, Machine, Memory, ReplayFault, Scene, accesses_in, locks_in,
    make_again,
};
use std::alloc::{AllocError, Global};

/// A machine, and what is kept of the choices that led to it.
#[derive(Drop)]
pub(crate) struct Watch {
    pub machine: Machine,
    /// The bodies that each instance runs, by which it is known whose inlet a step is of.
    pub tally: Tally,
    pub rows: Rows,
    pub touches: Vec<Touch>,
}

// So many accesses are kept at most.
const MOST: usize = 1 << 20;

impl Watch {
    /// Before any choice of a machine.
    pub(crate) fn new(alloc: Global, machine: Machine) -> Result<Watch, ReplayFault>
        ensures machine { IfOk result (λ w. w.machine ≡ machine) }
        ensures well { IfOk result (λ w. WellFormed w.machine.program) }
        ensures tally { IfOk result (λ w. w.tally ≡ first) }
        ensures rows { IfOk result (λ w. w.rows ≡ no_line ∷ []) }
        ensures touches { IfOk result (λ w. w.touches.items ≡ []) }
        ensures memory { IfErr result (λ why. why ≡ ReplayFault.Memory) }
    {
        // Brings its clauses into the proof.
        let _program = machine.loaded().program();
        match Tally::new(alloc) {
            Err(_) => {
                drop(machine);
                Err(ReplayFault::Memory)
            }
            Ok(tally) => match Rows::new(alloc) {
                Err(_) => {
                    drop(machine);
                    drop(tally);
                    Err(ReplayFault::Memory)
                }
                Ok(rows) => Ok(Watch {
                    machine,
                    tally,
                    rows,
                    touches: Vec::new(alloc),
                }),
            },
        }
    }

    /// The choice of this number, counted from 0, is made again behind those before it, and what it touches is kept.
    pub(crate) fn advance(
        &mut self,
        alloc: Global,
        choices: &[Choice],
        made: usize,
    ) -> Result<(), ReplayFault>
        requires made { self.old.machine.choices ≡ made }
        requires room { made < length choices.now }
        requires few { made < 2 ^ 59 }
        ensures next { OnOk result ((t : Tape) → t.choices ≡ map choice_of choices.now
            → IsAt t made self.old.machine → IsAt t (suc made) self.new.machine) }
        ensures made { OnOk result (self.new.machine.choices ≡ suc made) }
        ensures noted { OnOk result ((t : Tape) → t.choices ≡ map choice_of choices.now
            → IsAt t made self.old.machine → AdvancesWatch t choices.now made self.old self.new) }
        ensures told { IfErr result (λ why. (t : Tape) → t.choices ≡ map choice_of choices.now → IsAt t made self.old.machine → IsFaultOf t why) }
    {
        match chosen(choices, made) {
            None => unreachable!(),
            Some(choice) => match look(alloc, &self.machine, choice) {
                Err(_) => Err(ReplayFault::Memory),
                Ok(look) => match make_again(&mut self.machine, choices, made) {
                    Err(fault) => {
                        drop(look);
                        Err(fault)
                    }
                    Ok(did) => {
                        let noted = self.note(&look, made as u64 + 1, &did);
                        drop(look);
                        match noted {
                            Err(_) => Err(ReplayFault::Memory),
                            Ok(()) => Ok(()),
                        }
                    }
                },
            },
        }
    }

    // Keeps what a choice touched that did this, where it did more than to move a frame.
    fn note(&mut self, look: &Look, choice: u64, did: &Did) -> Result<(), Memory>
        ensures machine { self.new.machine ≡ self.old.machine }
        ensures noted { OnOk result (IsNoted self.old.machine.program self.old.machine.machine.nodes look.now choice did.now self.old self.new) }
    {
        match motion_of(&self.machine, self.tally.cells(), did) {
            None => Ok(()),
            Some(motion) => {
                self.keep(look, choice, &motion, number_of(did))?;
                note_rows(&mut self.rows, did, &motion)?;
                self.tally.note(&self.machine, did)
            }
        }
    }

    // Keeps the accesses of a step.
    fn keep(&mut self, look: &Look, choice: u64, motion: &Motion, n: u32) -> Result<(), Memory>
        ensures machine { self.new.machine ≡ self.old.machine }
        ensures tally { self.new.tally ≡ self.old.tally }
        ensures rows { self.new.rows ≡ self.old.rows }
        ensures touches { OnOk result (KeepsTouches choice look.now.own (placed_by self.old.rows motion.now) n look.now.locks.items
            look.now.procedure look.now.accesses.items self.old.touches.items self.new.touches.items) }
    {
        let placed = placed_by(&self.rows, motion);
        push_touches(&mut self.touches, look, choice, placed, n)
    }
}

// Keeps the accesses of a step that stands there.
fn push_touches(
    touches: &mut Vec<Touch>,
    look: &Look,
    choice: u64,
    placed: Placed,
    n: u32,
) -> Result<(), Memory>
    ensures touches { OnOk result ((rows : List Line) → touches_of rows touches.new.items ≡ touches_of rows touches.old.items
        ++ map (touch_by rows choice look.now.own placed n look.now.locks.items look.now.procedure) look.now.accesses.items) }
    ensures known { OnOk result ((count : ℕ) → look.now.own < count → ArePlaced count placed
        → All (KnowsTouch count) touches.old.items → All (KnowsTouch count) touches.new.items) }
{
    for access in look.accesses.as_slice() {
        push_touch(touches, look, choice, placed, n, *access)?;
    }
    Ok(())
}

// Keeps one of them.
#[tactic(auto, using(crate::proofs::Touched::known_push))]
fn push_touch(
    touches: &mut Vec<Touch>,
    look: &Look,
    choice: u64,
    placed: Placed,
    n: u32,
    access: Access,
) -> Result<(), Memory>
    ensures touches { OnOk result ((rows : List Line) → touches_of rows touches.new.items ≡ touches_of rows touches.old.items
        ++ touch_by rows choice look.now.own placed n look.now.locks.items look.now.procedure access ∷ []) }
    ensures known { OnOk result ((count : ℕ) → look.now.own < count → ArePlaced count placed
        → All (KnowsTouch count) touches.old.items → All (KnowsTouch count) touches.new.items) }
{
    refuse_more(touches.len())?;
    let locks = Vec::from_slice(*touches.allocator(), look.locks.as_slice())?;
    touches.push(Touch {
        choice,
        own: look.own,
        placed,
        n,
        access,
        locks,
        procedure: look.procedure,
    })?;
    Ok(())
}

// No more accesses than that are kept.
fn refuse_more(kept: usize) -> Result<(), Memory> {
    if MOST <= kept {
        Err(Memory::from(AllocError))
    } else {
        Ok(())
    }
}

// Those of the root alone.
fn chosen(choices: &[Choice], k: usize) -> Option<&Choice>
    ensures { option_copied result ≡ slice_get choices.now k }
{
    choices.get(k)
}

// What the next choice touches: that of the instance in the hand of a worker that steps.
fn look(alloc: Global, machine: &Machine, choice: &Choice) -> Result<Look, Memory>
    ensures { IfOk result (LooksAt machine.now choice.now) }
{
    match choice.act {
        Act::Step => match machine.scene_ahead(choice.worker) {
            None => Ok(nothing(alloc)),
            Some(scene) => look_at(alloc, &scene),
        },
        Act::Pop | Act::Steal(_) => Ok(nothing(alloc)),
    }
}

// What the next step of the instance of a scene touches.
fn look_at(alloc: Global, scene: &Scene) -> Result<Look, Memory>
    requires there { id_of (input_of scene.now) < length (input_of scene.now).nodes }
    requires fits { HeadFits (input_of scene.now) }
    ensures own { IfOk result (λ look. look.own ≡ id_of (input_of scene.now)) }
    ensures cells { IfOk result (λ look. told (input_of scene.now) look.accesses.items ≡ touched (input_of scene.now)) }
    ensures locks { IfOk result (λ look. look.locks.items ≡ held (input_of scene.now)) }
    ensures procedure { IfOk result (λ look. look.procedure ≡ (own_node (input_of scene.now)).procedure) }
{
    match accesses_in(alloc, scene) {
        Err(memory) => Err(memory),
        Ok(accesses) => match locks_in(alloc, scene) {
            Err(memory) => {
                drop(accesses);
                Err(memory)
            }
            Ok(locks) => Ok(Look {
                own: scene.frame.id().number(),
                accesses,
                locks,
                procedure: scene.tree.procedure(scene.frame.id()),
            }),
        },
    }
}

fn nothing(alloc: Global) -> Look
    ensures { IsNothing result }
{
    Look {
        own: 0,
        accesses: Vec::new(alloc),
        locks: Vec::new(alloc),
        procedure: 0,
    }
}

// The number of the action that a choice acted, or of the spawn whose value it took.
fn number_of(did: &Did) -> u32
    ensures { result ≡ number_of did.now }
{
    match *did {
        Did::Moved | Did::Ended(_) => 0,
        Did::Acted(_, n)
        | Did::Spawned(_, n)
        | Did::Delivered(_, n)
        | Did::Returned(_, n)
        | Did::Trapped(_, _, n) => n,
    }
}

fn placed_by(rows: &Rows, motion: &Motion) -> Placed
    ensures { result ≡ placed_by rows.now motion.now }
{
    Placed {
        place: motion.place,
        taking: motion.taking,
        syncs: rows.syncs(motion.place),
        children: rows.children(motion.place),
    }
}
