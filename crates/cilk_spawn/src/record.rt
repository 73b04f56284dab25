//! The record of one instance in the tree: its family, its fate, and what waits for it while it lives.

ghost use Rattle.std.specs.Prelude.{ℕ, ◌≡◌, ◌<◌, ◌==◌, ◌&&◌, ◌++◌, ◌∷◌, None, Some, [], true, cond, length, IfNone, IfOk, IfSome, OnErr, OnOk, drop};
ghost use Rattle.std.specs.Prelude.{option_copied, slice_get};
ghost use Rattle.cilk_spawn.specs.Nodes.{is_live, is_number, fate_at, after_taking};
ghost use Rattle.cilk_frame.specs.declared.receiver.Receiver.TheVariants.{Nothing};
ghost use Rattle.cilk_spawn.specs.Remains.{remains_of};
ghost use Rattle.cilk_spawn.specs.Records.{node_of, node_at_start, child_of, live_index, SameBeside, HasRoom, NoneBetween};

use crate::birth::Birth;
use crate::delivery::Delivery;
use crate::ending::Ending;
use crate::fate::Fate;
use crate::life::{Life, Live};
use crate::remains::Remains;
use cilk_frame::{Frame, Id, Memory, Receiver};
use std::alloc::Global;
use std::collections::{BTreeMap, VecDeque};
use std::mem::{replace, size_of};
use std::ops::Bound;

mod comparing;
mod copying;
mod undoing;

/// What is kept of each instance ever made.
pub struct Record {
    pub parent: Option<Id>,
    pub ordinal: u32,
    pub procedure: u32,
    /// How many children it ever spawned.
    pub children: u32,
    pub aborted: bool,
    pub life: Life,
}

// To drop it elsewhere is to call this, and its parts' drops are proved here alone.
impl Drop for Record {
    fn drop(self) {
        let Record {
            parent: _,
            ordinal: _,
            procedure: _,
            children: _,
            aborted: _,
            life: _life,
        } = self;
    }
}

// One that ended keeps this alone, however long the run goes on.
const _: () = prove!(size_of::<Record>() <= 48);

impl Record {
    /// An instance at its start.
    pub fn start(alloc: Global, birth: Birth, place: usize) -> Result<Record, Memory>
        ensures node { IfOk result (λ r. node_of r ≡ node_at_start birth.parent birth.ordinal birth.procedure birth.aborted birth.receiver) }
        ensures children { IfOk result (λ r. (k : ℕ) → child_of r.life k ≡ None) }
        ensures place { IfOk result (λ r. live_index r.life ≡ place) }
    {
        let live = Box::new(
            alloc,
            Live {
                living: BTreeMap::new(alloc),
                receiver: birth.receiver,
                waiting: VecDeque::new(alloc),
                parked: None,
                place,
            },
        )?;
        Ok(Record {
            parent: birth.parent,
            ordinal: birth.ordinal,
            procedure: birth.procedure,
            children: 0,
            aborted: birth.aborted,
            life: Life::Live(live),
        })
    }

    /// Whether it lives.
    pub fn is_live(&self) -> bool
        ensures { result ≡ is_live (node_of self.now) }
    {
        match &self.life {
            Life::Live(_) => true,
            _ => false,
        }
    }

    /// Whether it is the child of this instance with this ordinal.
    pub fn is_child(&self, parent: Id, ordinal: u32) -> bool
        ensures { result ≡ (is_number (node_of self.now).parent parent && ((node_of self.now).ordinal == ordinal)) }
    {
        match self.parent {
            None => false,
            Some(own) => own == parent && self.ordinal == ordinal,
        }
    }

    /// A child more, with the next ordinal.
    pub fn adopt(&mut self, ordinal: u32, child: Id) -> Result<(), Memory>
        requires live { is_live (node_of self.old) ≡ true }
        ensures node { OnOk result (node_of self.new ≡ record (node_of self.old) { children = ordinal }) }
        ensures children { OnOk result ((k : ℕ) → child_of self.new.life k ≡ cond (ordinal == k) (Some child) (child_of self.old.life k)) }
        ensures place { OnOk result (live_index self.new.life ≡ live_index self.old.life) }
        ensures err { OnErr result ((node_of self.new ≡ node_of self.old) × SameBeside self.old self.new) }
    {
        match &mut self.life {
            Life::Live(live) => {
                live.living.insert(ordinal, child)?;
            }
            _ => {}
        }
        self.children = ordinal;
        Ok(())
    }

    /// The child with this ordinal lives no more.
    pub fn lose(&mut self, ordinal: u32)
        ensures node { node_of self.new ≡ node_of self.old }
        ensures children { (k : ℕ) → child_of self.new.life k ≡ cond (ordinal == k) None (child_of self.old.life k) }
        ensures place { live_index self.new.life ≡ live_index self.old.life }
    {
        match &mut self.life {
            Life::Live(live) => {
                live.living.remove(&ordinal);
            }
            _ => {}
        }
    }

    /// It has this place now among those that live.
    pub fn move_to(&mut self, place: usize)
        requires live { is_live (node_of self.old) ≡ true }
        ensures node { node_of self.new ≡ node_of self.old }
        ensures children { (k : ℕ) → child_of self.new.life k ≡ child_of self.old.life k }
        ensures place { live_index self.new.life ≡ place }
    {
        match &mut self.life {
            Life::Live(live) => live.place = place,
            _ => {}
        }
    }

    /// It lives no more, from this choice on. Answers what was kept of it, if it lived.
    pub fn retire(&mut self, ending: Ending, choice: u64) -> Option<Remains>
        requires childless { (k : ℕ) → child_of self.old.life k ≡ None }
        requires free { (node_of self.old).parked ≡ None }
        ensures node { node_of self.new ≡ record (node_of self.old) { fate = fate_at ending choice; receiver = Nothing; waiting = []; parked = None } }
        ensures children { (k : ℕ) → child_of self.new.life k ≡ None }
        ensures remains { is_live (node_of self.old) ≡ true → result ≡ Some (remains_of (node_of self.old).receiver (node_of self.old).waiting) }
    {
        let life = match ending {
            Ending::Returned => Life::Returned,
            Ending::Aborted => Life::Aborted(choice),
        };
        match replace(&mut self.life, life) {
            Life::Live(live) => Some(Remains { live }),
            _ => None,
        }
    }

    /// Its value is taken at this choice. One that lives keeps its fate.
    pub fn lose_value(&mut self, choice: u64)
        ensures node { node_of self.new ≡ record (node_of self.old) { fate = after_taking choice (node_of self.old).fate } }
        ensures beside { SameBeside self.old self.new }
    {
        match &self.life {
            Life::Live(_) => {}
            _ => self.life = Life::Delivered(choice),
        }
    }

    /// What became of it.
    pub fn fate(&self) -> Fate
        ensures { result ≡ (node_of self.now).fate }
    {
        match &self.life {
            Life::Live(_) => Fate::Live,
            Life::Returned => Fate::Returned,
            Life::Delivered(choice) => Fate::Delivered(*choice),
            Life::Aborted(choice) => Fate::Aborted(*choice),
        }
    }

    /// Room for one more value that waits.
    pub fn make_room(&mut self) -> Result<(), Memory>
        requires live { is_live (node_of self.old) ≡ true }
        ensures node { node_of self.new ≡ node_of self.old }
        ensures beside { SameBeside self.old self.new }
        ensures room { OnOk result (HasRoom self.new.life) }
    {
        match &mut self.life {
            Life::Live(live) => live.waiting.reserve(1)?,
            _ => {}
        }
        Ok(())
    }

    /// A value waits, behind those that wait already.
    pub fn send(&mut self, delivery: Delivery)
        requires room { HasRoom self.old.life }
        ensures node { node_of self.new ≡ record (node_of self.old) { waiting = (node_of self.old).waiting ++ delivery ∷ [] } }
        ensures beside { SameBeside self.old self.new }
    {
        match &mut self.life {
            Life::Live(live) => live.waiting.push_back_reserved(delivery),
            _ => unreachable!(),
        }
    }

    /// Takes out what takes its value.
    pub fn take_receiver(&mut self) -> Receiver
        ensures result { result ≡ (node_of self.old).receiver }
        ensures node { node_of self.new ≡ record (node_of self.old) { receiver = Nothing } }
        ensures beside { SameBeside self.old self.new }
    {
        match &mut self.life {
            Life::Live(live) => replace(&mut live.receiver, Receiver::Nothing),
            _ => Receiver::Nothing,
        }
    }

    /// Takes out the value that has waited longest.
    pub fn take_oldest(&mut self) -> Option<Delivery>
        ensures result { result ≡ slice_get (node_of self.old).waiting 0 }
        ensures node { node_of self.new ≡ record (node_of self.old) { waiting = drop 1 (node_of self.old).waiting } }
        ensures beside { SameBeside self.old self.new }
    {
        match &mut self.life {
            Life::Live(live) => live.waiting.pop_front(),
            _ => None,
        }
    }

    /// Keeps the frame.
    pub fn park(&mut self, frame: Frame)
        requires live { is_live (node_of self.old) ≡ true }
        ensures node { node_of self.new ≡ record (node_of self.old) { parked = Some frame } }
        ensures beside { SameBeside self.old self.new }
    {
        match &mut self.life {
            Life::Live(live) => live.parked = Some(frame),
            _ => unreachable!(),
        }
    }

    /// Takes out the frame that is kept.
    pub fn unpark(&mut self) -> Option<Frame>
        ensures result { result ≡ (node_of self.old).parked }
        ensures node { node_of self.new ≡ record (node_of self.old) { parked = None } }
        ensures beside { SameBeside self.old self.new }
    {
        match &mut self.life {
            Life::Live(live) => live.parked.take(),
            _ => None,
        }
    }

    /// What takes the value of an instance that lives.
    pub fn receiver(&self) -> &Receiver
        requires { is_live (node_of self.now) ≡ true }
        ensures { result.now ≡ (node_of self.now).receiver }
    {
        match &self.life {
            Life::Live(live) => &live.receiver,
            _ => unreachable!(),
        }
    }

    /// The value that has waited longest.
    pub fn first_delivery(&self) -> Option<&Delivery>
        ensures { option_copied result ≡ slice_get (node_of self.now).waiting 0 }
    {
        match &self.life {
            Life::Live(live) => live.waiting.front(),
            _ => None,
        }
    }

    /// How many values wait.
    #[inline(always)]
    pub fn waiting(&self) -> usize
        ensures { result ≡ length (node_of self.now).waiting }
    {
        match &self.life {
            Life::Live(live) => live.waiting.len(),
            _ => 0,
        }
    }

    /// The frame that is kept.
    pub fn parked(&self) -> Option<&Frame>
        ensures { option_copied result ≡ (node_of self.now).parked }
    {
        match &self.life {
            Life::Live(live) => live.parked.as_ref(),
            _ => None,
        }
    }

    /// Where it stands among those that live.
    pub fn place(&self) -> usize
        ensures { result ≡ live_index self.now.life }
    {
        match &self.life {
            Life::Live(live) => live.place,
            _ => 0,
        }
    }

    /// The live child with this ordinal.
    pub fn child(&self, ordinal: u32) -> Option<Id>
        ensures { result ≡ child_of self.now.life ordinal }
    {
        match &self.life {
            Life::Live(live) => live.living.get(&ordinal).copied(),
            _ => None,
        }
    }

    /// A live child, and its ordinal, if there is one.
    #[inline(always)]
    pub fn first_child(&self) -> Option<(u32, Id)>
        ensures child { IfSome result (λ e. child_of self.now.life e.0 ≡ Some e.1) }
        ensures none { IfNone result ((k : ℕ) → child_of self.now.life k ≡ None) }
    {
        match &self.life {
            Life::Live(live) => match live.living.first_key_value() {
                Some((ordinal, child)) => Some((*ordinal, *child)),
                None => None,
            },
            _ => None,
        }
    }

    /// The live child with the least ordinal above this one, and that ordinal.
    pub fn next_child(&self, after: u32) -> Option<(u32, Id)>
        ensures above { IfSome result (λ e. after < e.0) }
        ensures child { IfSome result (λ e. child_of self.now.life e.0 ≡ Some e.1) }
        ensures least { IfSome result (λ e. NoneBetween self.now.life after e.0) }
        ensures none { IfNone result ((k : ℕ) → after < k → child_of self.now.life k ≡ None) }
    {
        match &self.life {
            Life::Live(live) => {
                let later = (Bound::Excluded(after), Bound::Unbounded);
                match live.living.range(later).next() {
                    Some((ordinal, child)) => Some((*ordinal, *child)),
                    None => None,
                }
            }
            _ => None,
        }
    }
}
