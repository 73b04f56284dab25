//! What is noted of each plan: the frame is in the worker's hand.

ghost use Rattle.std.specs.Prelude.{◌≡◌, ◌<◌, ℕ, ℤ, true, List, Option, IfOk};
ghost use Rattle.cilk_machine_plan.specs.frame.declared.awaited.Await as awaits;
ghost use Rattle.cilk_machine_plan.specs.frame.Frames as frames;
ghost use Rattle.cilk_machine_plan.specs.frame.Frames.{depth};
ghost use Rattle.cilk_machine_plan.specs.frame.declared.receiver.Receiver as receivers;
ghost use Rattle.cilk_machine_plan.specs.spawn.Nodes.{node_at, is_live};
ghost use Rattle.cilk_machine_plan.specs.agree.declared.lock.Lock as locks;
ghost use Rattle.cilk_machine_plan.specs.agree.Agrees.{MachineParts};
ghost use Rattle.cilk_machine_plan.specs.declared.plan.Plan.TheVariants as plans;
ghost use Rattle.cilk_machine_undo.specs.Notes.{Notes};
ghost use Rattle.cilk_machine_undo.specs.Words.{machine_in};

use crate::listing::{locks_held, newly_marked};
use crate::reading::{held_below, held_in, is_sent, lock_at, next_taken, stood_in};
use crate::undo::{Gone, Undo};
use cilk_machine_plan::{Frame, NoMemory, Parts, Reached, Writing};

/// The record of a step by which the instance only goes on.
pub fn note_go(worker: u8, frame: &Frame) -> Undo
    ensures { (m : MachineParts) (n to : ℕ) → Notes m worker frame.now (plans.Go n to) result }
{
    Undo::Went {
        stood: stood_in(worker, frame),
    }
}

/// The record of a step that writes to a cell.
pub fn note_write(worker: u8, frame: &Frame, reached: Reached, parts: &Parts) -> Undo
    ensures { (n to : ℕ) (z : ℤ) → Notes (machine_in parts.now) worker frame.now (plans.Write n reached z to) result }
{
    let value = held_in(frame, parts.globals.as_slice(), reached);
    Undo::Wrote {
        stood: stood_in(worker, frame),
        writing: Writing { reached, value },
    }
}

pub(crate) fn note_call(worker: u8, frame: &Frame) -> Undo
    ensures { (m : MachineParts) (n callee to : ℕ) (awaited : Option awaits.Await) (arguments : List ℤ)
        → Notes m worker frame.now (plans.Call n awaited callee arguments to) result }
{
    Undo::Called {
        stood: stood_in(worker, frame),
    }
}

pub(crate) fn note_park(worker: u8, frame: &Frame) -> Undo
    ensures { (m : MachineParts) → Notes m worker frame.now plans.Park result }
{
    Undo::Parked {
        id: frame.id(),
        worker,
    }
}

pub(crate) fn note_spawn(worker: u8, frame: &Frame) -> Undo
    ensures { (m : MachineParts) (n callee to : ℕ) (receiver : receivers.Receiver) (arguments : List ℤ)
        → Notes m worker frame.now (plans.Spawn n receiver callee arguments to) result }
{
    Undo::Spawned {
        stood: stood_in(worker, frame),
        id: frame.id(),
    }
}

pub(crate) fn note_print(worker: u8, frame: &Frame, parts: &Parts) -> Undo
    ensures { (n to : ℕ) (bytes : List ℕ) → Notes (machine_in parts.now) worker frame.now (plans.Print n bytes to) result }
{
    Undo::Printed {
        stood: stood_in(worker, frame),
        count: parts.output.len(),
    }
}

pub(crate) fn note_turn(worker: u8, frame: &Frame, lock: u32, parts: &Parts) -> Undo
    ensures { (n to : ℕ) (then : locks.Lock) → Notes (machine_in parts.now) worker frame.now (plans.TurnLock n lock then to) result }
{
    Undo::Turned {
        stood: stood_in(worker, frame),
        was: lock_at(parts.locks.as_slice(), lock),
        lock,
    }
}

pub(crate) fn note_take(
    worker: u8,
    frame: &Frame,
    reached: Reached,
    parts: &Parts,
) -> Result<Undo, NoMemory>
    requires { is_live (node_at parts.now.tree.nodes frame.now.id) ≡ true }
    ensures { IfOk result (λ u. (child n : ℕ) (z : ℤ) → Notes (machine_in parts.now) worker frame.now (plans.Take child n reached z) u) }
{
    let value = held_in(frame, parts.globals.as_slice(), reached);
    let writing = Writing { reached, value };
    match Box::new(
        *parts.globals.allocator(),
        next_taken(frame.id(), &parts.tree)?,
    ) {
        Err(_) => Err(NoMemory),
        Ok(taken) => Ok(Undo::Took {
            taken,
            writing,
            worker,
        }),
    }
}

pub(crate) fn note_enter(worker: u8, frame: &Frame, parts: &Parts) -> Result<Undo, NoMemory>
    requires { is_live (node_at parts.now.tree.nodes frame.now.id) ≡ true }
    ensures { IfOk result (λ u. (child n inlet : ℕ) (arguments : List ℤ)
        → Notes (machine_in parts.now) worker frame.now (plans.Enter child n inlet arguments) u) }
{
    match Box::new(
        *parts.globals.allocator(),
        next_taken(frame.id(), &parts.tree)?,
    ) {
        Err(_) => Err(NoMemory),
        Ok(taken) => Ok(Undo::Opened { taken, worker }),
    }
}

pub(crate) fn note_leave(worker: u8, parts: &Parts) -> Result<Undo, NoMemory>
    ensures { IfOk result (λ u. (f : frames.Frame) (n : ℕ) → Notes (machine_in parts.now) worker f (plans.Leave n) u) }
{
    match Box::new(*parts.globals.allocator(), None) {
        Err(_) => Err(NoMemory),
        Ok(activation) => Ok(Undo::Closed { activation, worker }),
    }
}

pub(crate) fn note_answer(
    worker: u8,
    frame: &Frame,
    reached: Reached,
    parts: &Parts,
) -> Result<Undo, NoMemory>
    requires { 1 < depth frame.now }
    ensures { IfOk result (λ u. (n : ℕ) (z : ℤ) → Notes (machine_in parts.now) worker frame.now (plans.Answer n reached z) u) }
{
    let value = held_below(frame, parts.globals.as_slice(), reached);
    let writing = Writing { reached, value };
    match Box::new(*parts.globals.allocator(), None) {
        Err(_) => Err(NoMemory),
        Ok(activation) => Ok(Undo::Answered {
            activation,
            writing,
            worker,
        }),
    }
}

pub(crate) fn note_end(worker: u8, frame: &Frame, parts: &Parts) -> Result<Undo, NoMemory>
    ensures { IfOk result (Notes (machine_in parts.now) worker frame.now plans.End) }
{
    let alloc = *parts.globals.allocator();
    let gone = Gone {
        held: locks_held(alloc, parts.locks.as_slice(), frame.id())?,
        sent: false,
        ended: None,
    };
    match Box::new(alloc, gone) {
        Err(_) => Err(NoMemory),
        Ok(gone) => Ok(Undo::Ended { gone, worker }),
    }
}

pub(crate) fn note_return(worker: u8, frame: &Frame, parts: &Parts) -> Result<Undo, NoMemory>
    requires { is_live (node_at parts.now.tree.nodes frame.now.id) ≡ true }
    ensures { IfOk result (λ u. (n : ℕ) (z : ℤ) → Notes (machine_in parts.now) worker frame.now (plans.Return n z) u) }
{
    let alloc = *parts.globals.allocator();
    let gone = Gone {
        held: Vec::new(alloc),
        sent: is_sent(frame.id(), &parts.tree),
        ended: None,
    };
    match Box::new(alloc, gone) {
        Err(_) => Err(NoMemory),
        Ok(gone) => Ok(Undo::Ended { gone, worker }),
    }
}

pub(crate) fn note_abort(worker: u8, frame: &Frame, parts: &Parts) -> Result<Undo, NoMemory>
    ensures { IfOk result (λ u. (n to : ℕ) → Notes (machine_in parts.now) worker frame.now (plans.Abort n to) u) }
{
    let alloc = *parts.globals.allocator();
    let ids = newly_marked(alloc, &parts.tree, frame.id())?;
    Ok(Undo::Marked {
        stood: stood_in(worker, frame),
        ids,
    })
}
