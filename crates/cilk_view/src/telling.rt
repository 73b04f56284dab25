//! A text that is told in portions.

ghost use Rattle.std.specs.Prelude.{◌≡◌, ◌++◌, [], IfOk, string_bytes};
ghost use Rattle.cilk_view.specs.Ups.{AreUp};
ghost use Rattle.cilk_view.specs.Entries.{NamesWithin, entries_text};

use crate::entry::Entry;
use crate::link::Link;
use crate::portion::Portion;
use crate::spot::{Spot, begin, tell};
use cilk_load::Memory;
use std::alloc::Global;
use std::marker::Model;

/// A text that is told in portions, of which contracts see what is not told yet. All its memory was taken when it was new; that grows with the
/// number of instances in it, and not with the length of their paths.
pub struct Telling {
    links: Vec<Option<Link>>,
    entries: Vec<Entry>,
    spot: Spot,
}

// To drop it elsewhere is to call this, and its fields' drops are proved here alone.
impl Drop for Telling {
    fn drop(self) {
        let Telling {
            links: _links,
            entries: _entries,
            spot: _spot,
        } = self;
    }
}

impl Model for Telling {
    ghost use Rattle.std.specs.Prelude.{ℕ, ◌≤◌, List, length, vec_capacity};
    ghost use Rattle.cilk_view.specs.Ups.{AreUp};
    ghost use Rattle.cilk_view.specs.Entries.{NamesWithin, rest_text};

    ghost Value = { List ℕ };

    ghost view = { λ t. rest_text t.links.items t.entries.items t.spot };

    ghost invariant = { λ t. AreUp t.links.items × (NamesWithin t.links.items t.entries.items × (length t.links.items ≤ vec_capacity t.spot.numbers)) };
}

impl Telling {
    /// The text of these entries.
    pub(crate) fn new(
        alloc: Global,
        links: Vec<Option<Link>>,
        entries: Vec<Entry>,
    ) -> Result<Telling, Memory>
        requires up { AreUp links.items }
        requires named { NamesWithin links.items entries.items }
        ensures { IfOk result (λ told. told ≡ entries_text links.items entries.items) }
    {
        match Vec::with_capacity(alloc, links.len()) {
            Err(fault) => {
                drop(links);
                drop(entries);
                Err(Memory::from(fault))
            }
            Ok(numbers) => {
                let mut spot = Spot {
                    at: 0,
                    from: 0,
                    numbers,
                };
                begin(links.as_slice(), entries.as_slice(), &mut spot);
                Ok(Telling {
                    links,
                    entries,
                    spot,
                })
            }
        }
    }

    /// A text that is there as a whole.
    pub fn whole(alloc: Global, text: String) -> Result<Telling, Memory>
        ensures { IfOk result (λ told. told ≡ string_bytes text) }
    {
        let mut entries = Vec::new(alloc);
        entries.push(Entry { name: None, text })?;
        Telling::new(alloc, Vec::new(alloc), entries)
    }

    /// The next portion: none only where nothing is left.
    pub fn put_next(&mut self, portion: &mut Portion)
        ensures told { self.old ≡ portion.new ++ self.new }
        ensures end { portion.new ≡ [] → self.old ≡ [] }
    {
        tell(
            self.links.as_slice(),
            self.entries.as_slice(),
            &mut self.spot,
            portion,
        );
    }
}
