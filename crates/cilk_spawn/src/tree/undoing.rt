//! What the calls of a tree changed is put back. The conditions are on what comes out.

ghost use Rattle.std.specs.Prelude.{◌≡◌, ◌<◌, ◌+◌, length, None, false, true, All, IfErr, OnErr, OnOk};
ghost use Rattle.cilk_spawn.specs.Dropped.{unborn};
ghost use Rattle.cilk_spawn.specs.Revived.{revived};
ghost use Rattle.cilk_spawn.specs.Undone.{untaken, unsent, unmarked};
ghost use Rattle.cilk_spawn.specs.Nodes.{node_at, is_live, lives, has_live_child, IsTree};

use super::Tree;
use crate::ending::Ending;
use crate::leaving::rejoin_parent;
use crate::putting::{give_receiver, make_room, set_fate, take_newest, unmark, wait_first};
use crate::remains::Remains;
use crate::taken::Taken;
use cilk_frame::Id;

impl Tree {
    /// The instance that was born last, of this parent, was never made.
    pub fn unbear(&mut self, id: Id, parent: Id)
        requires newest { length self.old.nodes ≡ id + 1 }
        requires above { parent < id }
        requires live { is_live (node_at self.old.nodes id) ≡ true }
        requires children { has_live_child self.old.nodes id ≡ false }
        requires free { (node_at self.old.nodes id).parked ≡ None }
        requires tree { IsTree (unborn parent self.old.nodes) }
        ensures { self.new.nodes ≡ unborn parent self.old.nodes }
    {
        self.end(id, Ending::Returned, 0);
        self.drop_last(id, parent);
    }

    // The instance that was born last has ended, and was never made.
    fn drop_last(&mut self, id: Id, parent: Id)
        requires newest { length self.old.nodes ≡ id + 1 }
        requires above { parent < id }
        requires dead { is_live (node_at self.old.nodes id) ≡ false }
        requires tree { IsTree (unborn parent self.old.nodes) }
        ensures { self.new.nodes ≡ unborn parent self.old.nodes }
    {
        self.records[parent.number()].disown();
        self.records.truncate(id.number());
    }

    /// An instance that has ended lives again, behind the others that live. Where memory has run out, what was kept of it
    /// comes back, and nothing has changed.
    pub fn revive(&mut self, id: Id, remains: Remains) -> Result<(), Remains>
        requires there { id < length self.old.nodes }
        requires dead { is_live (node_at self.old.nodes id) ≡ false }
        requires tree { IsTree (revived self.old.nodes id remains) }
        ensures ok { OnOk result (self.new.nodes ≡ revived self.old.nodes id remains) }
        ensures err { OnErr result (self.new ≡ self.old) }
        ensures back { IfErr result (λ r. r ≡ remains) }
    {
        let place = self.living.len();
        if self.living.reserve(1).is_err() {
            return Err(remains);
        }
        match rejoin_parent(&mut self.records, id) {
            Err(_) => Err(remains),
            Ok(()) => {
                self.records[id.number()].live_again(remains, place);
                self.living.push_reserved(id);
                Ok(())
            }
        }
    }

    /// A delivery was not taken: it waits for a live instance in front of the others, and its child had this fate. Where memory
    /// has run out, it comes back, and nothing has changed.
    pub fn untake(&mut self, taken: Box<Taken>) -> Result<(), Box<Taken>>
        requires live { is_live (node_at self.old.nodes taken.value.id) ≡ true }
        requires there { taken.value.delivery.child < length self.old.nodes }
        requires lives { lives taken.value.fate ≡ is_live (node_at self.old.nodes taken.value.delivery.child) }
        requires tree { IsTree (untaken self.old.nodes taken.value.id taken.value.delivery taken.value.fate) }
        ensures ok { OnOk result (self.new
            ≡ record self.old { nodes = untaken self.old.nodes taken.value.id taken.value.delivery taken.value.fate }) }
        ensures err { OnErr result (self.new ≡ self.old) }
        ensures back { IfErr result (λ t. t.value ≡ taken.value) }
    {
        let id = taken.id;
        match make_room(&mut self.records, id) {
            Err(_) => Err(taken),
            Ok(()) => {
                let Taken {
                    id: _,
                    delivery,
                    fate,
                } = Box::into_inner(taken);
                let child = delivery.child;
                wait_first(&mut self.records, id, delivery);
                set_fate(&mut self.records, child, fate);
                Ok(())
            }
        }
    }

    /// The newest delivery that waits for a live parent was not sent: it waits no more, and what takes it is again what takes the
    /// value of this child.
    pub fn unsend(&mut self, parent: Id, child: Id)
        requires parent { is_live (node_at self.old.nodes parent) ≡ true }
        requires child { is_live (node_at self.old.nodes child) ≡ true }
        requires tree { IsTree (unsent self.old.nodes parent child) }
        ensures { self.new ≡ record self.old { nodes = unsent self.old.nodes parent child } }
    {
        match take_newest(&mut self.records, parent) {
            None => {}
            Some(delivery) => give_receiver(&mut self.records, child, delivery.receiver),
        }
    }

    /// These instances were not marked by an `abort`.
    pub fn unmark(&mut self, ids: &[Id])
        requires there { All (λ i. i < length self.old.nodes) ids.now }
        requires tree { IsTree (unmarked self.old.nodes ids.now) }
        ensures { self.new ≡ record self.old { nodes = unmarked self.old.nodes ids.now } }
    {
        unmark(&mut self.records, ids);
    }
}
