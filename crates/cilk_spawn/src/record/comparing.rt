//! Whether two records keep the same.

ghost use Rattle.std.specs.Prelude.{◌≡◌, true, option_copied, slice_get};
ghost use Rattle.cilk_spawn.specs.Alike.{SameParked, SameKept};
ghost use Rattle.cilk_spawn.specs.Nodes.{lives};
ghost use Rattle.cilk_spawn.specs.Records.{node_of, fate_of, receiver_of, parked_of};

use super::Record;
use crate::delivery::Delivery;
use crate::life::Life;
use cilk_frame::{Frame, Mixer};

impl Record {
    /// Whether another that lives keeps the same, beside the tree.
    pub fn keeps_as(&self, other: &Record) -> bool
        ensures { result ≡ true → SameKept (node_of self.now) (node_of other.now) }
    {
        self.procedure == other.procedure
            && self.children == other.children
            && self.aborted == other.aborted
            && lives_as(&self.life, &other.life)
    }

    /// What it keeps beside the tree and what waits enters a number that tells states apart.
    pub fn mix(&self, mixer: &mut Mixer) {
        mixer.put(self.procedure as u64);
        mixer.put(self.children as u64);
        mixer.put(self.aborted as u64);
        match self.parked() {
            None => {}
            Some(frame) => frame.mix(mixer),
        }
    }

    /// Delivery k of those that wait, the oldest being 0, and then None.
    pub fn delivery(&self, k: usize) -> Option<&Delivery>
        ensures { option_copied result ≡ slice_get (node_of self.now).waiting k }
    {
        match &self.life {
            Life::Live(live) => live.waiting.get(k),
            _ => None,
        }
    }
}

fn lives_as(life: &Life, other: &Life) -> bool
    ensures live { result ≡ true → lives (fate_of other.now) ≡ true }
    ensures receiver { result ≡ true → receiver_of life.now ≡ receiver_of other.now }
    ensures parked { result ≡ true → SameParked (parked_of life.now) (parked_of other.now) }
{
    match (life, other) {
        (Life::Live(one), Life::Live(another)) => {
            one.receiver.same(&another.receiver) && is_parked_as(&one.parked, &another.parked)
        }
        _ => false,
    }
}

fn is_parked_as(frame: &Option<Frame>, other: &Option<Frame>) -> bool
    ensures { result ≡ true → SameParked frame.now other.now }
{
    match (frame, other) {
        (None, None) => true,
        (Some(one), Some(another)) => one.goes_on_as(another),
        _ => false,
    }
}
