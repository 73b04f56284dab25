//! A choice is taken back by its record.

ghost use Rattle.std.specs.Prelude.{◌≡◌, IfErr, OnErr, OnOk};
ghost use Rattle.cilk_machine_undo.specs.Able.{CanTakeBack};
ghost use Rattle.cilk_machine_undo.specs.Words.{undo_by, machine_in, IsTakenBack};

use crate::acting::{called_back, marked_back, printed_back, turned_back, went_back, wrote_back};
use crate::ending::ended_back;
use crate::moving::{parked_back, popped_back, spawned_back, stolen_back};
use crate::taking::{answered_back, closed_back, opened_back, took_back};
use crate::undo::Undo;
use cilk_machine_plan::Parts;

/// Takes the last choice back by its record. Where memory has run out, the record comes back, and nothing has changed.
pub fn take_back(undo: Undo, parts: &mut Parts) -> Result<(), Undo>
    requires { CanTakeBack (undo_by undo) (machine_in parts.old) }
    ensures ok { OnOk result (IsTakenBack (undo_by undo) parts.old parts.new) }
    ensures same { OnErr result (machine_in parts.new ≡ machine_in parts.old) }
    ensures living { OnErr result (parts.new.tree.living ≡ parts.old.tree.living) }
    ensures back { IfErr result (λ u. undo_by u ≡ undo_by undo) }
{
    match undo {
        Undo::Stayed { worker: _ } => Ok(()),
        Undo::Went { stood } => {
            went_back(stood, parts);
            Ok(())
        }
        Undo::Wrote { stood, writing } => {
            wrote_back(stood, writing, parts);
            Ok(())
        }
        Undo::Called { stood } => {
            called_back(stood, parts);
            Ok(())
        }
        Undo::Printed { stood, count } => {
            printed_back(stood, count, parts);
            Ok(())
        }
        Undo::Turned { stood, was, lock } => {
            turned_back(stood, lock, was, parts);
            Ok(())
        }
        Undo::Marked { stood, ids } => {
            marked_back(stood, ids.as_slice(), parts);
            Ok(())
        }
        Undo::Spawned { stood, id } => {
            spawned_back(stood, id, parts);
            Ok(())
        }
        Undo::Parked { id, worker } => {
            parked_back(worker, id, parts);
            Ok(())
        }
        Undo::Took {
            mut taken,
            writing,
            worker,
        } => match took_back(worker, &mut taken, writing, parts) {
            Ok(()) => Ok(()),
            Err(_) => Err(Undo::Took {
                taken,
                writing,
                worker,
            }),
        },
        Undo::Opened { mut taken, worker } => match opened_back(worker, &mut taken, parts) {
            Ok(()) => Ok(()),
            Err(_) => Err(Undo::Opened { taken, worker }),
        },
        Undo::Closed {
            mut activation,
            worker,
        } => match closed_back(worker, &mut activation, parts) {
            Ok(()) => Ok(()),
            Err(_) => Err(Undo::Closed { activation, worker }),
        },
        Undo::Answered {
            mut activation,
            writing,
            worker,
        } => match answered_back(worker, &mut activation, writing, parts) {
            Ok(()) => Ok(()),
            Err(_) => Err(Undo::Answered {
                activation,
                writing,
                worker,
            }),
        },
        Undo::Ended { mut gone, worker } => match ended_back(worker, gone.as_mut(), parts) {
            Ok(()) => Ok(()),
            Err(_) => Err(Undo::Ended { gone, worker }),
        },
        Undo::Popped { worker } => match popped_back(worker, parts) {
            Ok(()) => Ok(()),
            Err(_) => Err(Undo::Popped { worker }),
        },
        Undo::Stolen { worker, victim } => match stolen_back(worker, victim, parts) {
            Ok(()) => Ok(()),
            Err(_) => Err(Undo::Stolen { worker, victim }),
        },
    }
}
