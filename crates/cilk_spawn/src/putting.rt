//! Writes to single records that put back what the calls of a tree changed.

ghost use Rattle.std.specs.Prelude.{◌≡◌, ◌<◌, ◌∷◌, true, length, slice_set, All, OnOk};
ghost use Rattle.cilk_frame.specs.model.Hands.{bottom_of, above_bottom};
ghost use Rattle.cilk_spawn.specs.Nodes.{node_at, is_live, lives, with_waiting, with_fate};
ghost use Rattle.cilk_spawn.specs.Records.{nodes_of, record_at, Alike, HasRoom};
ghost use Rattle.cilk_spawn.specs.Undone.{waits_again, with_receiver, unmarked};

use crate::delivery::Delivery;
use crate::fate::Fate;
use crate::record::Record;
use cilk_frame::{Id, Memory, Receiver};

/// There is room for one delivery more that waits for an instance that lives.
pub fn make_room(records: &mut Vec<Record>, id: Id) -> Result<(), Memory>
    requires { is_live (node_at (nodes_of records.old.items) id) ≡ true }
    ensures nodes { nodes_of records.new.items ≡ nodes_of records.old.items }
    ensures beside { Alike records.old.items records.new.items }
    ensures room { OnOk result (HasRoom (record_at records.new.items id).life) }
{
    records[id.number()].make_room()
}

/// A delivery waits in front of the others.
pub fn wait_first(records: &mut Vec<Record>, id: Id, delivery: Delivery)
    requires there { id < length records.old.items }
    requires room { HasRoom (record_at records.old.items id).life }
    ensures nodes { nodes_of records.new.items ≡ waits_again (nodes_of records.old.items) id delivery }
    ensures beside { Alike records.old.items records.new.items }
{
    records[id.number()].wait_first(delivery);
}

/// The delivery that came last to an instance that lives waits no more.
pub fn take_newest(records: &mut Vec<Record>, id: Id) -> Option<Delivery>
    requires { is_live (node_at (nodes_of records.old.items) id) ≡ true }
    ensures result { result ≡ bottom_of (node_at (nodes_of records.old.items) id).waiting }
    ensures nodes { nodes_of records.new.items
        ≡ with_waiting (nodes_of records.old.items) id (above_bottom (node_at (nodes_of records.old.items) id).waiting) }
    ensures beside { Alike records.old.items records.new.items }
{
    records[id.number()].take_newest()
}

/// This takes the value of an instance that lives.
pub fn give_receiver(records: &mut Vec<Record>, id: Id, receiver: Receiver)
    requires { is_live (node_at (nodes_of records.old.items) id) ≡ true }
    ensures nodes { nodes_of records.new.items ≡ with_receiver (nodes_of records.old.items) id receiver }
    ensures beside { Alike records.old.items records.new.items }
{
    records[id.number()].give_receiver(receiver);
}

/// An instance has this fate, which lives where it lives.
pub fn set_fate(records: &mut Vec<Record>, id: Id, fate: Fate)
    requires there { id < length records.old.items }
    requires lives { lives fate ≡ is_live (node_at (nodes_of records.old.items) id) }
    ensures nodes { nodes_of records.new.items ≡ with_fate (nodes_of records.old.items) id fate }
    ensures beside { Alike records.old.items records.new.items }
{
    records[id.number()].set_fate(fate);
}

/// No `abort` marked these.
pub fn unmark(records: &mut Vec<Record>, ids: &[Id])
    requires { All (λ i. i < length records.old.items) ids.now }
    ensures nodes { nodes_of records.new.items ≡ unmarked (nodes_of records.old.items) ids.now }
    ensures beside { Alike records.old.items records.new.items }
{
    for id in ids {
        records[id.number()].unmark();
    }
}
