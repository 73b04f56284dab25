//! What the calls of the tree changed in a record is put back.

ghost use Rattle.std.specs.Prelude.{ℕ, ◌≡◌, ◌==◌, ◌∷◌, None, Some, true, cond, OnErr, OnOk};
ghost use Rattle.cilk_frame.specs.model.Hands.{bottom_of, above_bottom};
ghost use Rattle.cilk_spawn.specs.Nodes.{is_live, lives};
ghost use Rattle.cilk_spawn.specs.Dropped.{fewer};
ghost use Rattle.cilk_spawn.specs.Revived.{alive};
ghost use Rattle.cilk_spawn.specs.Undone.{unmark};
ghost use Rattle.cilk_spawn.specs.Records.{node_of, child_of, live_index, HasRoom, SameBeside};

use super::Record;
use crate::delivery::Delivery;
use crate::fate::Fate;
use crate::life::Life;
use crate::remains::Remains;
use cilk_frame::{Id, Memory, Receiver};

impl Record {
    /// Its last child was not there.
    pub fn disown(&mut self)
        ensures node { node_of self.new ≡ fewer (node_of self.old) }
        ensures beside { SameBeside self.old self.new }
    {
        self.children = self.children.saturating_sub(1);
    }

    /// The child with this ordinal lives again.
    pub fn regain(&mut self, ordinal: u32, child: Id) -> Result<(), Memory>
        requires live { is_live (node_of self.old) ≡ true }
        ensures node { node_of self.new ≡ node_of self.old }
        ensures children { OnOk result ((k : ℕ) → child_of self.new.life k ≡ cond (ordinal == k) (Some child) (child_of self.old.life k)) }
        ensures place { live_index self.new.life ≡ live_index self.old.life }
        ensures err { OnErr result (SameBeside self.old self.new) }
    {
        match &mut self.life {
            Life::Live(live) => {
                live.living.insert(ordinal, child)?;
            }
            _ => {}
        }
        Ok(())
    }

    /// It lives again, in this place.
    pub fn live_again(&mut self, remains: Remains, place: usize)
        ensures node { node_of self.new ≡ alive remains (node_of self.old) }
        ensures children { (k : ℕ) → child_of self.new.life k ≡ None }
        ensures place { live_index self.new.life ≡ place }
    {
        let Remains { mut live } = remains;
        live.place = place;
        self.life = Life::Live(live);
    }

    /// A value waits in front of those that wait.
    pub fn wait_first(&mut self, delivery: Delivery)
        requires room { HasRoom self.old.life }
        ensures node { node_of self.new ≡ record (node_of self.old) { waiting = delivery ∷ (node_of self.old).waiting } }
        ensures beside { SameBeside self.old self.new }
    {
        match &mut self.life {
            Life::Live(live) => live.waiting.push_front_reserved(delivery),
            _ => unreachable!(),
        }
    }

    /// Takes out the value that came last.
    pub fn take_newest(&mut self) -> Option<Delivery>
        ensures result { result ≡ bottom_of (node_of self.old).waiting }
        ensures node { node_of self.new ≡ record (node_of self.old) { waiting = above_bottom (node_of self.old).waiting } }
        ensures beside { SameBeside self.old self.new }
    {
        match &mut self.life {
            Life::Live(live) => live.waiting.pop_back(),
            _ => None,
        }
    }

    /// This takes its value.
    pub fn give_receiver(&mut self, receiver: Receiver)
        requires live { is_live (node_of self.old) ≡ true }
        ensures node { node_of self.new ≡ record (node_of self.old) { receiver = receiver } }
        ensures beside { SameBeside self.old self.new }
    {
        match &mut self.life {
            Life::Live(live) => live.receiver = receiver,
            _ => unreachable!(),
        }
    }

    /// It has this fate. One that lives keeps its own, and one that has ended lives in neither.
    pub fn set_fate(&mut self, fate: Fate)
        requires { lives fate ≡ is_live (node_of self.old) }
        ensures node { node_of self.new ≡ record (node_of self.old) { fate = fate } }
        ensures beside { SameBeside self.old self.new }
    {
        match fate {
            Fate::Live => {}
            Fate::Returned => self.life = Life::Returned,
            Fate::Delivered(choice) => self.life = Life::Delivered(choice),
            Fate::Aborted(choice) => self.life = Life::Aborted(choice),
        }
    }

    /// No `abort` marked it.
    pub fn unmark(&mut self)
        ensures node { node_of self.new ≡ unmark (node_of self.old) }
        ensures beside { SameBeside self.old self.new }
    {
        self.aborted = false;
    }
}
