//! The tree of instances: who is born, waits, is parked, is marked by an `abort`, and ends.

ghost use Rattle.std.specs.Prelude.{ℕ, ◌≡◌, ◌<◌, ◌+◌, ◌^◌, length, None, Some, false, true, [], ◌++◌, ◌∷◌, IfOk, IfSome, OnErr, OnOk, cond, nat_lt};
ghost use Rattle.std.specs.Prelude.{option_copied, slice_get};
ghost use Rattle.cilk_spawn.specs.Nodes.{node_at, is_live, live_ids, has_live_child, is_synched, takes_value, root_alone, with_child, delivered};
ghost use Rattle.cilk_spawn.specs.Nodes.{taken, fate_at, ended, with_parked, marked_below, path_at, IsTree};
ghost use Rattle.cilk_spawn.specs.Remains.{remains_of};

use crate::birth::Birth;
use crate::delivery::Delivery;
use crate::ending::Ending;
use crate::fate::Fate;
use crate::leaving::{leave_parent, settle};
use crate::record::Record;
use crate::remains::Remains;
use cilk_frame::{Frame, Id, Memory, Path, Receiver};
use std::alloc::Global;
use std::marker::Model;

mod comparing;
mod imaging;
mod keeping;
mod undoing;

/// Every instance ever made. An id is the next number from 0 on, and it is never given again.
#[derive(Drop)]
pub struct Tree {
    records: Vec<Record>,
    /// The ids of those that live, each at the place that its record tells.
    living: Vec<Id>,
}

impl Model for Tree {
    ghost use Rattle.cilk_spawn.specs.Family.{Family};
    ghost use Rattle.cilk_spawn.specs.Records.{nodes_of, Kept};

    ghost Value = { Family };

    ghost view = { λ t. record { nodes = nodes_of t.records.items; living = t.living.items } };

    ghost invariant = { λ t. Kept t.records.items t.living.items };
}

impl Tree {
    /// The root alone, `main` being this procedure.
    pub fn new(alloc: Global, procedure: u32) -> Result<Tree, Memory>
        ensures { IfOk result (λ tree. tree ≡ record { nodes = root_alone procedure; living = 0 ∷ [] }) }
    {
        let root = Birth {
            parent: None,
            ordinal: 0,
            procedure,
            aborted: false,
            receiver: Receiver::Nothing,
        };
        let mut records = Vec::new(alloc);
        records.push(Record::start(alloc, root, 0)?)?;
        let mut living = Vec::new(alloc);
        living.push(Id::new(0))?;
        Ok(Tree { records, living })
    }

    /// The id that the next child gets, whoever spawns it.
    pub fn next_id(&self) -> Id
        ensures id { result ≡ length self.now.nodes }
        ensures tree { IsTree self.now.nodes }
    {
        Id::new(self.records.len())
    }

    /// A live parent spawns a child, which is marked where the parent is, and answers its id (Cilk 5.4 manual, `spawn`).
    pub fn add_child(
        &mut self,
        parent: Id,
        procedure: u32,
        receiver: Receiver,
    ) -> Result<Id, Memory>
        requires live { is_live (node_at self.old.nodes parent) ≡ true }
        requires room { (node_at self.old.nodes parent).children + 1 < 2 ^ 32 }
        ensures id { IfOk result (λ id. id ≡ length self.old.nodes) }
        ensures nodes { OnOk result (self.new.nodes ≡ with_child self.old.nodes parent procedure receiver) }
        ensures living { OnOk result (self.new.living ≡ self.old.living ++ length self.old.nodes ∷ []) }
        ensures err { OnErr result (self.new ≡ self.old) }
    {
        let alloc = *self.records.allocator();
        let id = Id::new(self.records.len());
        let spawner = parent.number();
        let record = &self.records[spawner];
        let ordinal = record.children + 1;
        let aborted = record.aborted;
        let place = self.living.len();
        self.records.reserve(1)?;
        self.living.reserve(1)?;
        let birth = Birth {
            parent: Some(parent),
            ordinal,
            procedure,
            aborted,
            receiver,
        };
        let child = Record::start(alloc, birth, place)?;
        self.records[spawner].adopt(ordinal, id)?;
        self.records.push_reserved(child);
        self.living.push_reserved(id);
        Ok(id)
    }

    /// The value of a live child waits for the parent, behind what waited before, and takes along
    /// what takes it.
    pub fn deliver(&mut self, child: Id, value: i32) -> Result<(), Memory>
        requires live { is_live (node_at self.old.nodes child) ≡ true }
        requires receiver { takes_value (node_at self.old.nodes child).receiver ≡ true }
        ensures ok { OnOk result (self.new ≡ record self.old { nodes = delivered self.old.nodes child value }) }
        ensures err { OnErr result (self.new ≡ self.old) }
    {
        match self.records[child.number()].parent {
            None => Ok(()),
            Some(parent) => {
                self.records[parent.number()].make_room()?;
                let receiver = self.records[child.number()].take_receiver();
                self.records[parent.number()].send(Delivery {
                    child,
                    value,
                    receiver,
                });
                Ok(())
            }
        }
    }

    /// Takes the oldest delivery that waits for a live instance, at this choice. Its child, if that
    /// lives no more, is Delivered from then on.
    pub fn take_delivery(&mut self, id: Id, choice: u64) -> Option<Delivery>
        requires live { is_live (node_at self.old.nodes id) ≡ true }
        ensures result { result ≡ slice_get (node_at self.old.nodes id).waiting 0 }
        ensures tree { self.new ≡ record self.old { nodes = taken self.old.nodes id choice } }
    {
        match self.records[id.number()].take_oldest() {
            None => None,
            Some(delivery) => {
                self.records[delivery.child.number()].lose_value(choice);
                Some(delivery)
            }
        }
    }

    /// Marks the live descendants of a live instance (Cilk 5.4 manual, `abort`).
    pub fn mark_aborted(&mut self, id: Id)
        requires live { is_live (node_at self.old.nodes id) ≡ true }
        ensures { self.new ≡ record self.old { nodes = marked_below self.old.nodes id } }
    {
        let mut at = id;
        let mut after = 0;
        loop {
            match self.records[at.number()].next_child(after) {
                Some(next) => {
                    let (ordinal, child) = next;
                    let number = child.number();
                    if self.records[number].aborted {
                        after = ordinal;
                    } else {
                        self.records[number].aborted = true;
                        at = child;
                        after = 0;
                    }
                }
                None => {
                    if at == id {
                        return;
                    }
                    let record = &self.records[at.number()];
                    match record.parent {
                        None => return,
                        Some(parent) => {
                            after = record.ordinal;
                            at = parent;
                        }
                    }
                }
            }
        }
    }

    /// A live instance, all of whose children have ended, ends too, at this choice.
    pub fn end(&mut self, id: Id, ending: Ending, choice: u64)
        requires live { is_live (node_at self.old.nodes id) ≡ true }
        requires children { has_live_child self.old.nodes id ≡ false }
        requires parked { (node_at self.old.nodes id).parked ≡ None }
        ensures { self.new.nodes ≡ ended self.old.nodes id (fate_at ending choice) }
    {
        let _remains = self.retire(id, ending, choice);
    }

    /// The same. Answers what was kept of it, so that it may live again.
    pub fn retire(&mut self, id: Id, ending: Ending, choice: u64) -> Option<Remains>
        requires live { is_live (node_at self.old.nodes id) ≡ true }
        requires children { has_live_child self.old.nodes id ≡ false }
        requires parked { (node_at self.old.nodes id).parked ≡ None }
        ensures nodes { self.new.nodes ≡ ended self.old.nodes id (fate_at ending choice) }
        ensures remains { result ≡ Some (remains_of (node_at self.old.nodes id).receiver (node_at self.old.nodes id).waiting) }
    {
        let number = id.number();
        let place = self.records[number].place();
        leave_parent(&mut self.records, number);
        let remains = self.records[number].retire(ending, choice);
        self.living.swap_remove(place);
        settle(&mut self.records, self.living.as_slice(), place);
        remains
    }

    /// Keeps the frame of a live instance, until it is taken out.
    pub fn park(&mut self, frame: Frame)
        requires live { is_live (node_at self.old.nodes frame.id) ≡ true }
        requires free { (node_at self.old.nodes frame.id).parked ≡ None }
        ensures { self.new ≡ record self.old { nodes = with_parked self.old.nodes frame.id (Some frame) } }
    {
        let id = frame.id().number();
        self.records[id].park(frame);
    }

    /// Takes out the frame of a live instance, if it is parked.
    pub fn unpark(&mut self, id: Id) -> Option<Frame>
        requires live { is_live (node_at self.old.nodes id) ≡ true }
        ensures result { result ≡ (node_at self.old.nodes id).parked }
        ensures tree { self.new ≡ record self.old { nodes = with_parked self.old.nodes id None } }
    {
        self.records[id.number()].unpark()
    }

    /// The ordinals from the root's child down.
    pub fn path_of(&self, id: Id) -> Result<Path, Memory>
        requires { id < length self.now.nodes }
        ensures { IfOk result (λ path. path ≡ path_at self.now.nodes id) }
    {
        let mut numbers = Vec::new(*self.records.allocator());
        let mut at = id;
        while let Some(parent) = self.records[at.number()].parent {
            numbers.push(self.records[at.number()].ordinal)?;
            at = parent;
        }
        numbers.reverse();
        Ok(Path::new(numbers))
    }

    /// The instance with this path, whether it lives or not. One pass finds one that does not, as a child was made after its parent.
    pub fn find(&self, path: &[u32]) -> Option<Id>
        ensures found { IfSome result (λ id. (id < length self.now.nodes) × (path_at self.now.nodes id ≡ path.now)) }
        ensures all { (id : ℕ) → id < length self.now.nodes → path_at self.now.nodes id ≡ path.now → result ≡ Some id }
    {
        match self.find_live(path) {
            Some(id) => Some(id),
            None => self.find_made(path),
        }
    }

    fn find_made(&self, path: &[u32]) -> Option<Id>
        ensures found { IfSome result (λ id. (id < length self.now.nodes) × (path_at self.now.nodes id ≡ path.now)) }
        ensures all { (id : ℕ) → id < length self.now.nodes → path_at self.now.nodes id ≡ path.now → result ≡ Some id }
    {
        let mut at = Id::new(0);
        let mut depth = 0;
        for i in 0..self.records.len() {
            if depth < path.len() && self.records[i].is_child(at, path[depth]) {
                at = Id::new(i);
                depth += 1;
            }
        }
        if depth == path.len() { Some(at) } else { None }
    }

    fn find_live(&self, path: &[u32]) -> Option<Id>
        ensures tree { IsTree self.now.nodes }
        ensures found { IfSome result (λ id. (is_live (node_at self.now.nodes id) ≡ true) × (path_at self.now.nodes id ≡ path.now)) }
        ensures all { (id : ℕ) → is_live (node_at self.now.nodes id) ≡ true → path_at self.now.nodes id ≡ path.now → result ≡ Some id }
    {
        let mut at = Id::new(0);
        for ordinal in path {
            match self.records[at.number()].child(*ordinal) {
                None => return None,
                Some(child) => at = child,
            }
        }
        if self.records[at.number()].is_live() {
            Some(at)
        } else {
            None
        }
    }

    /// Nothing to wait for: no child lives, and no delivery waits (Cilk 5.4 manual, `SYNCHED`).
    #[inline(always)]
    pub fn is_synched(&self, id: Id) -> bool
        requires { id < length self.now.nodes }
        ensures { result ≡ is_synched self.now.nodes id }
    {
        !self.has_live_child(id) && self.waiting(id) == 0
    }

    /// The delivery that waits longest.
    pub fn first_delivery(&self, id: Id) -> Option<&Delivery>
        requires { id < length self.now.nodes }
        ensures { option_copied result ≡ slice_get (node_at self.now.nodes id).waiting 0 }
    {
        self.records[id.number()].first_delivery()
    }

    /// What takes the value of a live instance.
    pub fn receiver(&self, id: Id) -> &Receiver
        requires { is_live (node_at self.now.nodes id) ≡ true }
        ensures { result.now ≡ (node_at self.now.nodes id).receiver }
    {
        self.records[id.number()].receiver()
    }

    /// Who spawned the instance. The root has no parent.
    pub fn parent(&self, id: Id) -> Option<Id>
        requires { id < length self.now.nodes }
        ensures { result ≡ (node_at self.now.nodes id).parent }
    {
        self.records[id.number()].parent
    }

    /// The number of its procedure's body.
    pub fn procedure(&self, id: Id) -> u32
        requires { id < length self.now.nodes }
        ensures { result ≡ (node_at self.now.nodes id).procedure }
    {
        self.records[id.number()].procedure
    }

    /// Whether an `abort` marked it.
    pub fn is_aborted(&self, id: Id) -> bool
        requires { id < length self.now.nodes }
        ensures { result ≡ (node_at self.now.nodes id).aborted }
    {
        self.records[id.number()].aborted
    }

    /// Whether a child of it lives.
    #[inline(always)]
    pub fn has_live_child(&self, id: Id) -> bool
        requires { id < length self.now.nodes }
        ensures { result ≡ has_live_child self.now.nodes id }
    {
        self.records[id.number()].first_child().is_some()
    }

    /// How many deliveries wait for it.
    #[inline(always)]
    pub fn waiting(&self, id: Id) -> usize
        requires { id < length self.now.nodes }
        ensures { result ≡ length (node_at self.now.nodes id).waiting }
    {
        self.records[id.number()].waiting()
    }

    /// How many children it ever spawned.
    pub fn children(&self, id: Id) -> u32
        requires { id < length self.now.nodes }
        ensures { result ≡ (node_at self.now.nodes id).children }
    {
        self.records[id.number()].children
    }

    /// How many instances live.
    pub fn live(&self) -> usize
        ensures { result ≡ length (live_ids self.now.nodes) }
    {
        self.living.len()
    }

    /// The instances ever made one after another, in the order of birth, from place 0 on.
    pub fn nth(&self, i: usize) -> Option<Id>
        ensures { result ≡ cond (nat_lt i (length self.now.nodes)) (Some i) None }
    {
        if i < self.records.len() {
            Some(Id::new(i))
        } else {
            None
        }
    }

    /// What became of it.
    pub fn fate(&self, id: Id) -> Fate
        requires { id < length self.now.nodes }
        ensures { result ≡ (node_at self.now.nodes id).fate }
    {
        self.records[id.number()].fate()
    }

    /// The frame of an instance, if it is parked.
    pub fn parked(&self, id: Id) -> Option<&Frame>
        requires { id < length self.now.nodes }
        ensures { option_copied result ≡ (node_at self.now.nodes id).parked }
    {
        self.records[id.number()].parked()
    }
}
