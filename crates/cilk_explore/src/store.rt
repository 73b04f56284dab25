//! The logs that a search has found, each kept as the choice that it has more than an earlier one.

ghost use Rattle.std.specs.Prelude.{◌≡◌, ◌≢◌, ◌<◌, ◌++◌, ◌∷◌, [], length, map, Some, None, IfOk, IfSome, OnErr, OnOk, set, slice_get, slice_index_or};
ghost use Rattle.cilk_machine.specs.sched.Words.{choice_of};
ghost use Rattle.cilk_explore.specs.Looking.{IsLongerBy, IsWay};

use crate::node::Node;
use crate::tag::Tag;
use cilk_machine::{Act, Choice, Memory};
use std::alloc::{AllocError, Global};
use std::collections::HashMap;
use std::marker::Model;

/// The logs, numbered from 0 in the order in which they were found. A table leads from the digest of a standing to the last node that has it.
#[derive(Drop)]
pub(crate) struct Store {
    nodes: Vec<Node>,
    latest: HashMap<u64, u32>,
    /// No node has a parent of a larger number.
    last_parent: u32,
}

impl Model for Store {
    ghost use Rattle.std.specs.Prelude.{List};
    ghost use Rattle.cilk_machine.specs.model.Choice as choices;

    ghost Value = { List (List choices.Choice) };

    ghost use Rattle.cilk_explore.specs.Logs.{logs_of, AreGrown, HaveNoParentBehind};

    ghost view = { λ s. logs_of s.nodes.items };

    ghost invariant = { λ s. AreGrown s.nodes.items × HaveNoParentBehind s.last_parent s.nodes.items };
}

impl Store {
    /// The log without choices alone, which leads to a standing of this tag.
    pub fn new(alloc: Global, tag: Tag) -> Result<Store, Memory>
        ensures { IfOk result (λ s. s ≡ [] ∷ []) }
    {
        let mut nodes = Vec::new(alloc);
        let mut latest = HashMap::new(alloc);
        let first = Node {
            parent: 0,
            before: 0,
            choice: Choice {
                worker: 0,
                act: Act::Step,
            },
            mixed: tag.mixed,
        };
        latest.insert(tag.digest, 0)?;
        nodes.push(first)?;
        Ok(Store {
            nodes,
            latest,
            last_parent: 0,
        })
    }

    /// How many there are.
    pub fn len(&self) -> usize
        ensures { result ≡ length self.now }
    {
        self.nodes.len()
    }

    /// Puts the log of this number in place of another.
    pub fn read(&self, number: usize, log: &mut Vec<Choice>) -> Result<(), Memory>
        requires { number < length self.now }
        ensures { OnOk result (slice_get self.now number ≡ Some (map choice_of log.new.items)) }
    {
        log.clear();
        let mut at = number;
        while at != 0 {
            let node = self.nodes[at];
            log.push(node.choice)?;
            at = node.parent as usize;
        }
        log.reverse();
        Ok(())
    }

    /// How many choices of the log of one number are to be taken back, and which are to be made then, to get to that of another. It goes by the nodes between
    /// the two and those where they part, whatever is before these.
    pub fn way(&self, from: usize, to: usize, tail: &mut Vec<Choice>) -> Result<usize, Memory>
        requires from { from < length self.now }
        requires to { to < length self.now }
        ensures { IfOk result (λ back. IsWay self.now from to back (map choice_of tail.new.items)) }
    {
        tail.clear();
        let mut back = 0;
        let mut here = from;
        let mut there = to;
        while here != there {
            if here < there {
                let node = self.nodes[there];
                tail.push(node.choice)?;
                there = node.parent as usize;
            } else {
                let node = self.nodes[here];
                here = node.parent as usize;
                back += 1;
            }
        }
        tail.reverse();
        Ok(back)
    }

    /// One log more: that of this number, and a choice. It leads to a standing of this tag.
    pub fn push(&mut self, parent: usize, choice: Choice, tag: Tag) -> Result<(), Memory>
        requires { parent < length self.old }
        ensures more { OnOk result (self.new ≡ self.old ++ (slice_index_or self.old parent [] ++ choice_of choice ∷ []) ∷ []) }
        ensures same { OnErr result (self.new ≡ self.old) }
    {
        let number = self.nodes.len();
        if u32::MAX as usize <= number {
            return Err(Memory::from(AllocError));
        }
        if self.nodes.reserve(1).is_err() {
            return Err(Memory::from(AllocError));
        }
        let own = number as u32;
        let above = parent as u32;
        let before = self.latest.get(&tag.digest).copied().unwrap_or(own);
        if self.latest.insert(tag.digest, own).is_err() {
            return Err(Memory::from(AllocError));
        }
        self.nodes.push_reserved(Node {
            parent: above,
            before,
            choice,
            mixed: tag.mixed,
        });
        self.last_parent = self.last_parent.max(above);
        Ok(())
    }

    /// Puts in place of the log of this number that of an earlier one, and a choice, and tells which one choice less it came from. None where another log may
    /// be behind it.
    pub fn put_behind(&mut self, number: usize, parent: usize, choice: Choice) -> Option<usize>
        requires { number < length self.old }
        ensures put { result ≢ None → self.new ≡ set self.old number (slice_index_or self.old parent [] ++ choice_of choice ∷ []) }
        ensures old { IfSome result (IsLongerBy self.old number) }
        ensures same { result ≡ None → self.new ≡ self.old }
    {
        if number <= parent || number <= self.last_parent as usize || number > u32::MAX as usize {
            return None;
        }
        let above = parent as u32;
        let old = self.nodes[number];
        self.nodes[number] = Node {
            parent: above,
            before: old.before,
            choice,
            mixed: old.mixed,
        };
        self.last_parent = self.last_parent.max(above);
        Some(old.parent as usize)
    }

    /// What all that lives behind the log of this number comes to.
    pub fn mixed_of(&self, number: usize) -> u32 {
        match self.nodes.get(number) {
            None => 0,
            Some(node) => node.mixed,
        }
    }

    /// The last log that leads to a standing of this digest.
    pub fn last_of(&self, digest: u64) -> Option<usize>
        ensures { IfSome result (λ k. k < length self.now) }
    {
        match self.latest.get(&digest) {
            None => None,
            Some(number) => {
                let last = *number as usize;
                if last < self.nodes.len() {
                    Some(last)
                } else {
                    None
                }
            }
        }
    }

    /// The one before it of that digest.
    pub fn before(&self, number: usize) -> Option<usize>
        ensures there { IfSome result (λ k. k < length self.now) }
        ensures less { IfSome result (λ k. k < number) }
    {
        if self.nodes.len() <= number {
            return None;
        }
        let node = self.nodes[number];
        let before = node.before as usize;
        if before < number { Some(before) } else { None }
    }
}
