//! Which cell that others see a slot names.

ghost use Rattle.std.specs.Prelude.{◌≡◌, ◌<◌, ◌++◌, length, map, position, OnOk};
ghost use Rattle.cilk_machine_plan.specs.StepInput.{id_of};
ghost use Rattle.cilk_machine_step.specs.Scenes.{input_of};
ghost use Rattle.cilk_machine_step.specs.Reads.{Read};
ghost use Rattle.cilk_machine_step.specs.Shown.{begins_at, number_at, own_path, own_vars, read_at, reads_of, seen, update};
ghost use Rattle.cilk_machine_step.specs.CellWords.{access, listed, read_of, told, where_of};

use crate::access::{Access, Spot};
use crate::read::Read;
use crate::scene::Scene;
use cilk_load::{Area, BinOp, Memory, Slot, Var};
use cilk_machine_plan::Reached;

// The cell, as an activation sees it that is the procedure's own or not. What a C function or an inlet declares nobody else sees.
fn spot_of(scene: &Scene, alone: bool, reached: Reached) -> Option<Spot>
    requires { id_of (input_of scene.now) < length (input_of scene.now).nodes }
    ensures { listed (where_of (own_path (input_of scene.now))) result ≡ seen (input_of scene.now) alone reached.slot reached.index }
{
    let slot = reached.slot;
    let index = reached.index;
    match slot.area {
        Area::Global => Some(Spot::Global {
            variable: number_at(slot.offset, scene.loaded.globals()),
            index,
        }),
        Area::Outer => Some(own_spot(scene, slot, index)),
        Area::Own if alone => Some(own_spot(scene, slot, index)),
        Area::Own => None,
    }
}

// A cell of a variable of the instance's procedure.
fn own_spot(scene: &Scene, slot: Slot, index: u32) -> Spot
    requires { id_of (input_of scene.now) < length (input_of scene.now).nodes }
    ensures { result ≡ Spot.Own (number_at slot.offset (own_vars (input_of scene.now))) index }
{
    let procedure = scene.tree.procedure(scene.frame.id());
    let variable = match scene.loaded.body(procedure) {
        None => number_at(slot.offset, &[]),
        Some(body) => number_at(slot.offset, body.vars.as_slice()),
    };
    Spot::Own { variable, index }
}

// Which of these variables lies there, counted from 0.
fn number_at(offset: u32, vars: &[Var]) -> usize
    ensures { result ≡ number_at offset vars.now }
{
    match variable_at(offset, vars) {
        None => 0,
        Some(number) => number,
    }
}

fn variable_at(offset: u32, vars: &[Var]) -> Option<usize>
    ensures { result ≡ position (begins_at offset) vars.now }
{
    vars.iter().position(|var| begins_at(offset, var))
}

fn begins_at(offset: u32, var: &Var) -> bool
    ensures { result ≡ begins_at offset var.now }
{
    var.slot.offset == offset
}

// Adds an access of a cell, if others see it.
fn push_seen(
    accesses: &mut Vec<Access>,
    scene: &Scene,
    alone: bool,
    reached: Reached,
    writes: bool,
) -> Result<(), Memory>
    requires { id_of (input_of scene.now) < length (input_of scene.now).nodes }
    ensures { OnOk result (told (input_of scene.now) accesses.new.items
        ≡ told (input_of scene.now) accesses.old.items ++ map (access writes) (seen (input_of scene.now) alone reached.slot reached.index)) }
{
    match spot_of(scene, alone, reached) {
        None => Ok(()),
        Some(at) => {
            accesses.push(Access { at, writes })?;
            Ok(())
        }
    }
}

fn push_read(accesses: &mut Vec<Access>, scene: &Scene, read: Read) -> Result<(), Memory>
    requires { id_of (input_of scene.now) < length (input_of scene.now).nodes }
    ensures { OnOk result (told (input_of scene.now) accesses.new.items
        ≡ told (input_of scene.now) accesses.old.items ++ read_at (input_of scene.now) (read_of read)) }
{
    match read {
        Read::Cell(slot, index) => push_seen(
            accesses,
            scene,
            scene.is_outer(),
            Reached { slot, index },
            false,
        ),
        Read::Synched => {
            accesses.push(Access {
                at: Spot::Synched,
                writes: false,
            })?;
            Ok(())
        }
    }
}

/// Adds what expressions of the top activation read.
pub(crate) fn push_read_cells(
    accesses: &mut Vec<Access>,
    scene: &Scene,
    reads: &[Read],
) -> Result<(), Memory>
    requires { id_of (input_of scene.now) < length (input_of scene.now).nodes }
    ensures { OnOk result (told (input_of scene.now) accesses.new.items
        ≡ told (input_of scene.now) accesses.old.items ++ reads_of (input_of scene.now) (map read_of reads.now)) }
{
    for read in reads {
        push_read(accesses, scene, *read)?;
    }
    Ok(())
}

/// Adds that a cell takes a value, which is read before where there is an operator.
pub(crate) fn push_update(
    accesses: &mut Vec<Access>,
    scene: &Scene,
    alone: bool,
    op: Option<BinOp>,
    reached: Reached,
) -> Result<(), Memory>
    requires { id_of (input_of scene.now) < length (input_of scene.now).nodes }
    ensures { OnOk result (told (input_of scene.now) accesses.new.items
        ≡ told (input_of scene.now) accesses.old.items ++ update (input_of scene.now) alone op reached.slot reached.index) }
{
    if op.is_some() {
        push_seen(accesses, scene, alone, reached, false)?;
    }
    push_seen(accesses, scene, alone, reached, true)
}
