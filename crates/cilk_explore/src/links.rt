//! Where the choices behind each log lead, as the numbers of the logs that lead to the same.

ghost use Rattle.std.specs.Prelude.{◌≡◌, ◌<◌, ◌≤◌, ◌^◌, ◌++◌, ◌∷◌, [], length, Some, OnOk, slice_get};
ghost use Rattle.cilk_explore.specs.Links.{start_of};

use cilk_machine::Memory;
use std::alloc::{AllocError, Global};
use std::marker::Model;

/// The links of the logs that were looked at, in their order, and of the one that is looked at.
#[derive(Drop)]
pub(crate) struct Links {
    /// Those of one log behind those of another.
    numbers: Vec<u32>,
    /// Where those of each log that was looked at end.
    ends: Vec<u32>,
}

impl Model for Links {
    ghost use Rattle.std.specs.Prelude.{length};
    ghost use Rattle.cilk_explore.specs.Links.{Linkage, linkage_of, AreEnds};

    ghost Value = { Linkage };

    ghost view = { λ s. linkage_of s.ends.items s.numbers.items };

    ghost invariant = { λ s. AreEnds 0 s.ends.items (length s.numbers.items) };
}

impl Links {
    /// Of no log.
    pub fn new(alloc: Global) -> Links
        ensures { result ≡ record { past = []; here = [] } }
    {
        Links {
            numbers: Vec::new(alloc),
            ends: Vec::new(alloc),
        }
    }

    /// How many logs were looked at.
    pub fn len(&self) -> usize
        ensures { result ≡ length self.now.past }
    {
        self.ends.len()
    }

    /// One link more of the log that is looked at.
    pub fn push(&mut self, number: usize) -> Result<(), Memory>
        ensures { OnOk result (self.new ≡ record self.old { here = self.old.here ++ number ∷ [] }) }
    {
        if number > u32::MAX as usize {
            return Err(Memory::from(AllocError));
        }
        match self.numbers.push(number as u32) {
            Ok(()) => Ok(()),
            Err(_) => Err(Memory::from(AllocError)),
        }
    }

    /// That log was looked at, and has all its links.
    pub fn close(&mut self) -> Result<(), Memory>
        ensures { OnOk result (self.new ≡ record { past = self.old.past ++ self.old.here ∷ []; here = [] }) }
    {
        let end = self.numbers.len();
        if end > u32::MAX as usize {
            return Err(Memory::from(AllocError));
        }
        match self.ends.push(end as u32) {
            Ok(()) => Ok(()),
            Err(_) => Err(Memory::from(AllocError)),
        }
    }

    /// The links of the log of this number.
    pub fn of(&self, number: usize) -> &[u32]
        requires { number < length self.now.past }
        ensures { slice_get self.now.past number ≡ Some result.now }
    {
        let end = self.ends[number] as usize;
        let start = start_in(self.ends.as_slice(), number);
        &self.numbers[start..end]
    }
}

// Where the links of the log of this number begin.
fn start_in(ends: &[u32], number: usize) -> usize
    requires { number ≤ length ends.now }
    ensures is { result ≡ start_of 0 ends.now number }
    ensures few { result < 2 ^ 32 }
{
    if number == 0 {
        return 0;
    }
    let end = ends[number - 1];
    end as usize
}
