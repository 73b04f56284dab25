//! What changes in the records of other instances where one ends, or lives again.

ghost use Rattle.std.specs.Prelude.{ℕ, ◌≡◌, ◌<◌, true, length, slice_index_or, Some, OnErr, OnOk};
ghost use Rattle.cilk_spawn.specs.Nodes.{node_at, is_live, IsTree};
ghost use Rattle.cilk_spawn.specs.Records.{nodes_of, Alike, Lost, Moved};
ghost use Rattle.cilk_spawn.specs.Revived.{Regained};

use crate::record::Record;
use cilk_frame::{Id, Memory};

/// The parent of an instance, if it has one, has it no more among its live children.
pub fn leave_parent(records: &mut Vec<Record>, child: usize)
    requires there { child < length records.old.items }
    requires tree { IsTree (nodes_of records.old.items) }
    ensures { Lost records.old.items records.new.items child }
{
    let record = &records[child];
    let ordinal = record.ordinal;
    match record.parent {
        None => {}
        Some(parent) => records[parent.number()].lose(ordinal),
    }
}

/// The instance that has come to a place among those that live, if one has, is told so.
pub fn settle(records: &mut Vec<Record>, living: &[Id], place: usize)
    requires live { place < length living.now → is_live (node_at (nodes_of records.old.items) (slice_index_or living.now place 0)) ≡ true }
    ensures { Moved records.old.items records.new.items living.now place }
{
    match living.get(place) {
        None => {}
        Some(moved) => records[moved.number()].move_to(place),
    }
}

/// The parent of an instance, if it has one, has it again among its live children. Where memory has run out, nothing has changed.
pub fn rejoin_parent(records: &mut Vec<Record>, child: Id) -> Result<(), Memory>
    requires there { child < length records.old.items }
    requires parent { (q : ℕ) → (node_at (nodes_of records.old.items) child).parent ≡ Some q
        → is_live (node_at (nodes_of records.old.items) q) ≡ true }
    ensures ok { OnOk result (Regained records.old.items records.new.items child) }
    ensures same { OnErr result (nodes_of records.new.items ≡ nodes_of records.old.items) }
    ensures beside { OnErr result (Alike records.old.items records.new.items) }
{
    let record = &records[child.number()];
    let ordinal = record.ordinal;
    match record.parent {
        None => Ok(()),
        Some(parent) => match records[parent.number()].regain(ordinal, child) {
            Ok(()) => Ok(()),
            Err(memory) => Err(memory),
        },
    }
}
