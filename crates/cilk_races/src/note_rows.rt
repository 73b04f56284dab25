//! What is kept of the instances of a run, one step more.

ghost use Rattle.std.specs.Prelude.{◌≡◌, OnOk};
ghost use Rattle.cilk_races.specs.Noted.{passed_if, rows_after};

use crate::motion::Motion;
use crate::rows::Rows;
use cilk_log_replay::{Did, Memory};

/// Behind a step that did this.
pub(crate) fn note_rows(rows: &mut Rows, did: &Did, motion: &Motion) -> Result<(), Memory>
    ensures { OnOk result (rows.new ≡ rows_after did.now motion.now rows.old) }
{
    match *did {
        Did::Acted(_, _) => {
            pass(rows, motion.joins, motion.place);
            Ok(())
        }
        Did::Spawned(_, _) => rows.bear(motion.place),
        _ => Ok(()),
    }
}

// The instance at a place passes a `sync`, if that is what it did.
fn pass(rows: &mut Rows, joins: bool, place: usize)
    ensures { rows.new ≡ passed_if joins place rows.old }
{
    if joins {
        rows.pass(place);
    }
}
