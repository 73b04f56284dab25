//! Whether two trees tell the same, whatever the ids are.

ghost use Rattle.std.specs.Prelude.{ℕ, ◌≡◌, ◌<◌, true, length, Some, IfSome, slice_get};
ghost use Rattle.cilk_spawn.specs.Nodes.{node_at, is_live, path_at};
ghost use Rattle.cilk_spawn.specs.declared.delivery.Delivery as deliveries;
ghost use Rattle.cilk_spawn.specs.Alike.{taker_in, SameDelivery, SameWaiting, SameNode, SameTree};

use super::Tree;
use crate::delivery::Delivery;
use crate::record::Record;
use cilk_frame::{Id, Mixer};

// So many numbers of a path, from its end on, tell paths apart: of trees that are deeper most are chains.
const NEAREST: usize = 16;

impl Tree {
    /// Whether the same instances live, and the same is told of each: ids do not matter, and neither do those that have ended.
    pub fn is_same(&self, other: &Tree) -> bool
        ensures { result ≡ true → SameTree self.now.nodes other.now.nodes }
    {
        // Each that lives here has a partner of its own there, so that none is left over where as many live.
        self.living.len() == other.living.len() && self.all_are_told(other)
    }

    /// Whether the instance of this id here and that of the other id there have one path. It may be false where that has ended.
    pub fn is_same_path(&self, id: Id, other: &Tree, to: Id) -> bool
        ensures { result ≡ true → path_at self.now.nodes id ≡ path_at other.now.nodes to }
    {
        // Brings its clauses into the proof.
        let _count = self.records.len();
        let _others = other.records.len();
        self.is_same_path_by(id, other, to, Id::new(0), Id::new(0))
    }

    /// The same, where two are known that have one path: what is on the way to these is not compared again.
    pub fn is_same_path_by(&self, id: Id, other: &Tree, to: Id, near: Id, by: Id) -> bool
        requires { path_at self.now.nodes near ≡ path_at other.now.nodes by }
        ensures { result ≡ true → path_at self.now.nodes id ≡ path_at other.now.nodes to }
    {
        if id.number() < self.records.len() {
            match self.partner_behind(id, other, near, by) {
                None => false,
                Some(found) => found == to,
            }
        } else {
            false
        }
    }

    // Whether the same is told there of each that lives here. Most live behind the one before them, or near it.
    fn all_are_told(&self, other: &Tree) -> bool
        ensures { result ≡ true → (i : ℕ) → is_live (node_at self.now.nodes i) ≡ true → (j : ℕ) × SameNode self.now.nodes other.now.nodes i j }
    {
        // Brings its clauses into the proof.
        let _others = other.records.len();
        let mut near = Id::new(0);
        let mut by = Id::new(0);
        for k in 0..self.living.len() {
            let here = self.living[k];
            match self.told(here, other, near, by) {
                None => return false,
                Some(to) => {
                    near = here;
                    by = to;
                }
            }
        }
        true
    }

    // The instance there of which the same is told, if it has the path of this one.
    fn told(&self, id: Id, other: &Tree, near: Id, by: Id) -> Option<Id>
        requires here { id < length self.now.nodes }
        requires near { path_at self.now.nodes near ≡ path_at other.now.nodes by }
        ensures same { IfSome result (λ to. SameNode self.now.nodes other.now.nodes id to) }
    {
        match self.partner_behind(id, other, near, by) {
            None => None,
            Some(to) => {
                if to.number() < other.records.len() && self.is_told_as(id, other, to) {
                    Some(to)
                } else {
                    None
                }
            }
        }
    }

    // The instance there with the path of this one, which mostly is a child of the one that is known to have a partner.
    #[inline(always)]
    fn partner_behind(&self, id: Id, other: &Tree, near: Id, by: Id) -> Option<Id>
        requires here { id < length self.now.nodes }
        requires near { path_at self.now.nodes near ≡ path_at other.now.nodes by }
        ensures { IfSome result (λ to. path_at self.now.nodes id ≡ path_at other.now.nodes to) }
    {
        // Brings its clauses into the proof.
        let _others = other.records.len();
        let record = &self.records[id.number()];
        match record.parent {
            None => self.partner(id, other, near, by),
            Some(parent) => {
                if parent == near && other.has_child(by, record.ordinal, id) {
                    Some(id)
                } else {
                    self.partner(id, other, near, by)
                }
            }
        }
    }

    // The instance there with the path of this one. Each on the way to it lives, from the root on or from the one that is known to have a partner.
    fn partner(&self, id: Id, other: &Tree, near: Id, by: Id) -> Option<Id>
        requires here { id < length self.now.nodes }
        requires near { path_at self.now.nodes near ≡ path_at other.now.nodes by }
        ensures { IfSome result (λ to. path_at self.now.nodes id ≡ path_at other.now.nodes to) }
    {
        if id == near {
            return Some(by);
        }
        let record = &self.records[id.number()];
        match record.parent {
            None => Some(Id::new(0)),
            Some(parent) => match self.partner(parent, other, near, by) {
                None => None,
                Some(to) => {
                    if other.has_child(to, record.ordinal, id) {
                        Some(id)
                    } else if other.records.len() <= to.number() {
                        None
                    } else {
                        other.records[to.number()].child(record.ordinal)
                    }
                }
            },
        }
    }

    // Whether the instance of this id is the child of that parent with this ordinal. Mostly a partner has the same id, and is not looked for then.
    fn has_child(&self, parent: Id, ordinal: u32, id: Id) -> bool
        ensures parent { result ≡ true → (node_at self.now.nodes id).parent ≡ Some parent }
        ensures ordinal { result ≡ true → (node_at self.now.nodes id).ordinal ≡ ordinal }
    {
        match self.records.get(id.number()) {
            None => false,
            Some(record) => match record.parent {
                None => false,
                Some(own) => own == parent && record.ordinal == ordinal,
            },
        }
    }

    // Whether the same is told of two of one path.
    fn is_told_as(&self, id: Id, other: &Tree, to: Id) -> bool
        requires here { id < length self.now.nodes }
        requires there { to < length other.now.nodes }
        requires path { path_at self.now.nodes id ≡ path_at other.now.nodes to }
        ensures { result ≡ true → SameNode self.now.nodes other.now.nodes id to }
    {
        self.records[id.number()].keeps_as(&other.records[to.number()])
            && self.taker(id) == other.taker(to)
            && self.waits_as(id, other, to)
    }

    // The number of the body of its parent's procedure.
    fn taker(&self, id: Id) -> u32
        requires { id < length self.now.nodes }
        ensures { result ≡ taker_in self.now.nodes (node_at self.now.nodes id).parent }
    {
        match self.records[id.number()].parent {
            None => 0,
            Some(parent) => self.records[parent.number()].procedure,
        }
    }

    // Whether the same waits for two of one path.
    fn waits_as(&self, id: Id, other: &Tree, to: Id) -> bool
        requires here { id < length self.now.nodes }
        requires there { to < length other.now.nodes }
        requires path { path_at self.now.nodes id ≡ path_at other.now.nodes to }
        ensures { result ≡ true
            → SameWaiting self.now.nodes other.now.nodes (node_at self.now.nodes id).waiting (node_at other.now.nodes to).waiting }
    {
        let count = self.waiting(id);
        if count != other.waiting(to) {
            return false;
        }
        for k in 0..count {
            if !self.waits_as_at(k, id, other, to) {
                return false;
            }
        }
        true
    }

    // Whether delivery k is the same.
    fn waits_as_at(&self, k: usize, id: Id, other: &Tree, to: Id) -> bool
        requires here { id < length self.now.nodes }
        requires there { to < length other.now.nodes }
        requires path { path_at self.now.nodes id ≡ path_at other.now.nodes to }
        ensures { result ≡ true → (d e : deliveries.Delivery) → slice_get (node_at self.now.nodes id).waiting k ≡ Some d
            → slice_get (node_at other.now.nodes to).waiting k ≡ Some e → SameDelivery self.now.nodes other.now.nodes d e }
    {
        match self.records[id.number()].delivery(k) {
            None => false,
            Some(mine) => match other.records[to.number()].delivery(k) {
                None => false,
                Some(own) => {
                    self.has_ordinal_of(mine.child, other, own.child) && mine.brings_as(own)
                }
            },
        }
    }

    fn has_ordinal_of(&self, id: Id, other: &Tree, to: Id) -> bool
        ensures { result ≡ true → (node_at self.now.nodes id).ordinal ≡ (node_at other.now.nodes to).ordinal }
    {
        match self.records.get(id.number()) {
            None => false,
            Some(one) => match other.records.get(to.number()) {
                None => false,
                Some(another) => one.ordinal == another.ordinal,
            },
        }
    }

    /// A number that tells apart what may be told of an instance, and of others. It is 0 of one that does not live.
    pub fn mixed_of(&self, id: Id) -> u64 {
        match self.records.get(id.number()) {
            None => 0,
            Some(record) => {
                if record.is_live() {
                    self.mixed_as(id, record)
                } else {
                    0
                }
            }
        }
    }

    fn mixed_as(&self, id: Id, record: &Record) -> u64 {
        let mut own = Mixer::new();
        own.put(self.mixed_path(id));
        record.mix(&mut own);
        for k in 0..record.waiting() {
            self.mix_delivery(record.delivery(k), &mut own);
        }
        own.mixed()
    }

    /// The sum of these numbers.
    pub fn mixed(&self) -> u64 {
        let mut sum: u64 = 0;
        for k in 0..self.living.len() {
            sum = sum.wrapping_add(self.mixed_of(self.living[k]));
        }
        sum
    }

    /// A number that tells paths apart.
    pub fn mixed_path(&self, id: Id) -> u64 {
        let mut own = Mixer::new();
        let mut at = id;
        for _ in 0..NEAREST {
            match self.records.get(at.number()) {
                None => return own.mixed(),
                Some(record) => {
                    own.put(record.ordinal as u64);
                    match record.parent {
                        None => return own.mixed(),
                        Some(parent) => at = parent,
                    }
                }
            }
        }
        own.mixed()
    }

    fn mix_delivery(&self, delivery: Option<&Delivery>, mixer: &mut Mixer) {
        match delivery {
            None => {}
            Some(sent) => {
                mixer.put_signed(sent.value);
                match self.records.get(sent.child.number()) {
                    None => {}
                    Some(child) => mixer.put(child.ordinal as u64),
                }
            }
        }
    }
}
