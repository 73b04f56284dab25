//! What an action changed is put back: where the frame in a hand stood, and a cell, a lock, the output or marks beside it.

ghost use Rattle.std.specs.Prelude.{◌≡◌};
ghost use Rattle.cilk_machine_undo.specs.Frames as change;
ghost use Rattle.cilk_machine_undo.specs.Undo as undo;
ghost use Rattle.cilk_machine_undo.specs.Able.{CanActBack};
ghost use Rattle.cilk_machine_undo.specs.Words.{went_by, cell_by, machine_in, IsTakenBack};

use crate::undo::Stood;
use cilk_machine_plan::{Id, Lock, Parts, Writing, turn_lock, write_cell};

/// The activation goes on where it stood.
pub(crate) fn went_back(stood: Stood, parts: &mut Parts)
    requires { CanActBack stood.worker (went_by stood) undo.kept (machine_in parts.old) }
    ensures { IsTakenBack (undo.acted stood.worker (went_by stood) undo.kept undo.nothing) parts.old parts.new }
{
    parts.hands.stand(stood.worker, stood.node, stood.boundary);
}

/// A cell holds again what it held.
pub(crate) fn wrote_back(stood: Stood, writing: Writing, parts: &mut Parts)
    requires { CanActBack stood.worker (change.wrote stood.node stood.boundary writing.reached writing.value) undo.kept
        (machine_in parts.old) }
    ensures { IsTakenBack (undo.acted stood.worker (change.wrote stood.node stood.boundary writing.reached writing.value) undo.kept (cell_by writing))
        parts.old parts.new }
{
    write_cell(stood.worker, writing, &mut parts.globals, &mut parts.hands);
    parts.hands.stand(stood.worker, stood.node, stood.boundary);
}

/// The body that was called is left.
pub(crate) fn called_back(stood: Stood, parts: &mut Parts)
    requires { CanActBack stood.worker (change.called stood.node stood.boundary) undo.kept (machine_in parts.old) }
    ensures { IsTakenBack (undo.acted stood.worker (change.called stood.node stood.boundary) undo.kept undo.nothing) parts.old parts.new }
{
    parts.hands.leave(stood.worker);
    parts.hands.stand(stood.worker, stood.node, stood.boundary);
}

/// What was printed is cut off behind so many bytes.
pub(crate) fn printed_back(stood: Stood, count: usize, parts: &mut Parts)
    requires { CanActBack stood.worker (went_by stood) undo.kept (machine_in parts.old) }
    ensures { IsTakenBack (undo.acted stood.worker (went_by stood) undo.kept (undo.printed count)) parts.old parts.new }
{
    parts.output.truncate(count);
    parts.hands.stand(stood.worker, stood.node, stood.boundary);
}

/// A lock is again what it was.
pub(crate) fn turned_back(stood: Stood, lock: u32, was: Lock, parts: &mut Parts)
    requires { CanActBack stood.worker (went_by stood) undo.kept (machine_in parts.old) }
    ensures { IsTakenBack (undo.acted stood.worker (went_by stood) undo.kept (undo.lock lock was)) parts.old parts.new }
{
    turn_lock(&mut parts.locks, lock, was);
    parts.hands.stand(stood.worker, stood.node, stood.boundary);
}

/// These instances are marked no more.
pub(crate) fn marked_back(stood: Stood, ids: &[Id], parts: &mut Parts)
    requires { CanActBack stood.worker (went_by stood) (undo.marked ids.now) (machine_in parts.old) }
    ensures { IsTakenBack (undo.acted stood.worker (went_by stood) (undo.marked ids.now) undo.nothing) parts.old parts.new }
{
    parts.tree.unmark(ids);
    parts.hands.stand(stood.worker, stood.node, stood.boundary);
}
