//! Deliveries that were taken, and activations that were left, are put back.

ghost use Rattle.std.specs.Prelude.{◌≡◌, ◌<◌, Some, IfSome, OnErr, OnOk, option_map};
ghost use Rattle.cilk_machine_plan.specs.model.Hands.{IsWorker, hand_of, with_hand};
ghost use Rattle.cilk_machine_plan.specs.frame.Frames.{Frame, Activation, depth, entered};
ghost use Rattle.cilk_machine_plan.specs.frame.Cells.{globals_put};
ghost use Rattle.cilk_machine_undo.specs.Frames as change;
ghost use Rattle.cilk_machine_undo.specs.Frames.{put_at};
ghost use Rattle.cilk_machine_undo.specs.Undo as undo;
ghost use Rattle.cilk_machine_undo.specs.Undo.{family_before};
ghost use Rattle.cilk_machine_undo.specs.Able.{TreeAllows, CanActBack, CanTakeBack, WritesBelow};
ghost use Rattle.cilk_machine_undo.specs.Words.{cell_by, took_by, family_by, closed_by, answered_by, machine_in, IsTakenBack};

use cilk_machine_plan::{
    Activation, Area, Hands, NoMemory, Parts, Taken, Tree, Writing, write_cell,
};
use std::alloc::Global;

/// The delivery waits again, and a cell holds what it held. Where memory has run out, nothing has changed.
pub(crate) fn took_back(
    worker: u8,
    taken: &mut Box<Option<Taken>>,
    writing: Writing,
    parts: &mut Parts,
) -> Result<(), NoMemory>
    requires { CanActBack worker (took_by writing) (family_by taken.old.value) (machine_in parts.old) }
    ensures ok { OnOk result (IsTakenBack (undo.acted worker (took_by writing) (family_by taken.old.value) (cell_by writing)) parts.old parts.new) }
    ensures same { OnErr result (machine_in parts.new ≡ machine_in parts.old) }
    ensures living { OnErr result (parts.new.tree.living ≡ parts.old.tree.living) }
    ensures back { OnErr result (taken.new.value ≡ taken.old.value) }
{
    let alloc = *parts.globals.allocator();
    match wait_again(alloc, taken, &mut parts.tree) {
        Err(_) => Err(NoMemory),
        Ok(()) => {
            write_cell(worker, writing, &mut parts.globals, &mut parts.hands);
            Ok(())
        }
    }
}

/// The delivery waits again, and its inlet is left. Where memory has run out, nothing has changed.
pub(crate) fn opened_back(
    worker: u8,
    taken: &mut Box<Option<Taken>>,
    parts: &mut Parts,
) -> Result<(), NoMemory>
    requires { CanActBack worker change.opened (family_by taken.old.value) (machine_in parts.old) }
    ensures ok { OnOk result (IsTakenBack (undo.acted worker change.opened (family_by taken.old.value) undo.nothing) parts.old parts.new) }
    ensures same { OnErr result (machine_in parts.new ≡ machine_in parts.old) }
    ensures living { OnErr result (parts.new.tree.living ≡ parts.old.tree.living) }
    ensures back { OnErr result (taken.new.value ≡ taken.old.value) }
{
    let alloc = *parts.globals.allocator();
    match wait_again(alloc, taken, &mut parts.tree) {
        Err(_) => Err(NoMemory),
        Ok(()) => {
            parts.hands.leave(worker);
            Ok(())
        }
    }
}

// A delivery was not taken, if one was. Where memory has run out, nothing has changed.
fn wait_again(
    alloc: Global,
    taken: &mut Box<Option<Taken>>,
    tree: &mut Tree,
) -> Result<(), NoMemory>
    requires { TreeAllows (family_by taken.old.value) tree.old.nodes }
    ensures ok { OnOk result (tree.new.nodes ≡ family_before (family_by taken.old.value) tree.old.nodes) }
    ensures same { OnErr result (tree.new ≡ tree.old) }
    ensures back { OnErr result (taken.new.value ≡ taken.old.value) }
{
    match Box::replace(taken, None) {
        None => Ok(()),
        Some(delivery) => match Box::new(alloc, delivery) {
            Err(failed) => {
                *taken.as_mut() = Some(failed.value);
                Err(NoMemory)
            }
            Ok(delivery) => match tree.untake(delivery) {
                Ok(()) => Ok(()),
                Err(delivery) => {
                    *taken.as_mut() = Some(Box::into_inner(delivery));
                    Err(NoMemory)
                }
            },
        },
    }
}

/// The activation that was left goes on. Where memory has run out, nothing has changed.
pub(crate) fn closed_back(
    worker: u8,
    activation: &mut Box<Option<Activation>>,
    parts: &mut Parts,
) -> Result<(), NoMemory>
    requires { CanTakeBack (closed_by worker activation.old.value) (machine_in parts.old) }
    ensures ok { OnOk result (IsTakenBack (closed_by worker activation.old.value) parts.old parts.new) }
    ensures same { OnErr result (machine_in parts.new ≡ machine_in parts.old) }
    ensures living { OnErr result (parts.new.tree.living ≡ parts.old.tree.living) }
    ensures back { OnErr result (activation.new.value ≡ activation.old.value) }
{
    let alloc = *parts.globals.allocator();
    match Box::replace(activation, None) {
        None => Ok(()),
        Some(left) => enter_again(alloc, worker, left, activation, &mut parts.hands),
    }
}

/// So it does, and a cell below holds what it held. Where memory has run out, nothing has changed.
pub(crate) fn answered_back(
    worker: u8,
    activation: &mut Box<Option<Activation>>,
    writing: Writing,
    parts: &mut Parts,
) -> Result<(), NoMemory>
    requires { CanTakeBack (answered_by worker activation.old.value writing) (machine_in parts.old) }
    ensures ok { OnOk result (IsTakenBack (answered_by worker activation.old.value writing) parts.old parts.new) }
    ensures same { OnErr result (machine_in parts.new ≡ machine_in parts.old) }
    ensures living { OnErr result (parts.new.tree.living ≡ parts.old.tree.living) }
    ensures back { OnErr result (activation.new.value ≡ activation.old.value) }
{
    let alloc = *parts.globals.allocator();
    match Box::replace(activation, None) {
        None => Ok(()),
        Some(left) => match enter_again(alloc, worker, left, activation, &mut parts.hands) {
            Err(_) => Err(NoMemory),
            Ok(()) => {
                write_below(worker, writing, &mut parts.globals, &mut parts.hands);
                Ok(())
            }
        },
    }
}

// An activation goes on again. Where memory has run out, the box takes it, and nothing else has changed.
fn enter_again(
    alloc: Global,
    worker: u8,
    left: Activation,
    activation: &mut Box<Option<Activation>>,
    hands: &mut Hands,
) -> Result<(), NoMemory>
    requires worker { IsWorker hands.old worker }
    requires room { IfSome (hand_of hands.old worker) (λ f. depth f < 256) }
    ensures ok { OnOk result (hands.new ≡ with_hand hands.old worker (option_map (entered left) (hand_of hands.old worker))) }
    ensures same { OnErr result (hands.new ≡ hands.old) }
    ensures back { OnErr result (activation.new.value ≡ Some left) }
{
    match Box::new(alloc, left) {
        Err(failed) => {
            *activation.as_mut() = Some(failed.value);
            Err(NoMemory)
        }
        Ok(left) => match hands.enter_again(worker, left) {
            Ok(()) => Ok(()),
            Err(left) => {
                *activation.as_mut() = Some(Box::into_inner(left));
                Err(NoMemory)
            }
        },
    }
}

// Writes a cell of the activation below the top one, of the procedure's own, or of the top level.
fn write_below(worker: u8, writing: Writing, globals: &mut Vec<i32>, hands: &mut Hands)
    requires { WritesBelow worker writing.reached globals.old.items hands.old }
    ensures hands { (a : Activation) (f : Frame) → hand_of hands.old worker ≡ Some (entered a f) → 0 < depth f
        → hands.new ≡ with_hand hands.old worker (Some (entered a (put_at writing.reached writing.value f))) }
    ensures globals { globals.new.items ≡ globals_put writing.reached.slot writing.reached.index writing.value globals.old.items }
{
    let Writing { reached, value } = writing;
    let cell = reached.slot.offset + reached.index;
    match reached.slot.area {
        Area::Own => hands.set_cell_below(worker, cell, value),
        Area::Outer => hands.set_lowest_cell(worker, cell, value),
        Area::Global => globals[cell as usize] = value,
    }
}
