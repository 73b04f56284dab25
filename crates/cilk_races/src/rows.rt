//! What is kept of the instances of a run, by place: the place of an instance is its id, its number in the order of birth.

ghost use Rattle.std.specs.Prelude.{◌≡◌, ◌<◌, ◌+◌, ◌∷◌, [], length, slice_index_or, take, IfOk, OnOk};
ghost use Rattle.cilk_log_replay.specs.machine.model.Path.{same_path};
ghost use Rattle.cilk_races.specs.Kept.{block_in, children_in, last_in, path_in, syncs_in};
ghost use Rattle.cilk_races.specs.Line.{no_line};
ghost use Rattle.cilk_races.specs.Mixed.{mixed_all};
ghost use Rattle.cilk_races.specs.Noted.{bore_at, passed_at};
ghost use Rattle.cilk_races.specs.Related.{common};

use crate::mixed::mixed;
use crate::row::{ROOT, Row, row_at};
use crate::ways::{above, common, is_same, is_same_between, is_same_way, path_of};
use cilk_log_replay::Memory;
use std::alloc::Global;
use std::marker::Model;

/// Contracts see the path of each, which nothing keeps.
#[derive(Drop)]
pub(crate) struct Rows {
    kept: Vec<Row>,
}

impl Model for Rows {
    ghost use Rattle.std.specs.Prelude.{List};
    ghost use Rattle.cilk_races.specs.Line.{Line};
    ghost use Rattle.cilk_races.specs.Ways.{AreKin, lines_of};

    ghost Value = { List Line };

    ghost view = { λ r. lines_of r.kept.items };

    ghost invariant = { λ r. AreKin r.kept.items };
}

impl Rows {
    /// The root alone, before any choice.
    pub(crate) fn new(alloc: Global) -> Result<Rows, Memory>
        ensures { IfOk result (λ rows. rows ≡ no_line ∷ []) }
    {
        let mut kept = Vec::new(alloc);
        kept.push(ROOT)?;
        Ok(Rows { kept })
    }

    /// The instance at a place passes a `sync`.
    pub(crate) fn pass(&mut self, place: usize)
        ensures { self.new ≡ passed_at place self.old }
    {
        if place < self.kept.len() {
            let row = self.kept[place];
            let syncs = row.syncs.saturating_add(1);
            self.kept[place] = Row { syncs, ..row };
        }
    }

    /// The instance at a place spawns a child.
    pub(crate) fn bear(&mut self, place: usize) -> Result<(), Memory>
        ensures { OnOk result (self.new ≡ bore_at place self.old) }
    {
        if place < self.kept.len() {
            let row = self.kept[place];
            let children = row.children.saturating_add(1);
            self.kept.push(Row {
                parent: place,
                depth: row.depth + 1,
                ordinal: children,
                block: row.syncs,
                syncs: 0,
                children: 0,
                hash: mixed(row.hash, children as usize),
            })?;
            self.kept[place] = Row { children, ..row };
        }
        Ok(())
    }

    /// How many instances stand above the one at a place.
    pub(crate) fn depth(&self, place: usize) -> usize
        ensures { result ≡ length (path_in self.now place) }
    {
        row_at(self.kept.as_slice(), place).depth
    }

    /// The number that stands there on its path.
    pub(crate) fn number(&self, place: usize, at: usize) -> u64
        ensures { result ≡ slice_index_or (path_in self.now place) at 0 }
    {
        let kept = self.kept.as_slice();
        let depth = row_at(kept, place).depth;
        if at < depth {
            row_at(kept, above(kept, place, depth - at - 1)).ordinal
        } else {
            0
        }
    }

    /// The block of the instance that stands there on its path.
    pub(crate) fn block(&self, place: usize, at: usize) -> u64
        ensures { result ≡ block_in self.now place at }
    {
        let kept = self.kept.as_slice();
        let depth = row_at(kept, place).depth;
        if at < depth {
            row_at(kept, above(kept, place, depth - at - 1)).block
        } else {
            0
        }
    }

    /// Its own block. The root has none.
    pub(crate) fn last(&self, place: usize) -> u64
        ensures { result ≡ last_in self.now place }
    {
        let row = row_at(self.kept.as_slice(), place);
        if row.depth == 0 { 0 } else { row.block }
    }

    /// How many `sync`s it passed.
    pub(crate) fn syncs(&self, place: usize) -> u64
        ensures { result ≡ syncs_in self.now place }
    {
        row_at(self.kept.as_slice(), place).syncs
    }

    /// How many children it spawned.
    pub(crate) fn children(&self, place: usize) -> u64
        ensures { result ≡ children_in self.now place }
    {
        row_at(self.kept.as_slice(), place).children
    }

    /// The hash of its path.
    pub(crate) fn hash(&self, place: usize) -> usize
        ensures { result ≡ mixed_all 0 (path_in self.now place) }
    {
        row_at(self.kept.as_slice(), place).hash
    }

    /// Whether two have one path.
    pub(crate) fn is_same(&self, one: usize, other: usize) -> bool
        ensures { result ≡ same_path (path_in self.now one) (path_in self.now other) }
    {
        is_same(self.kept.as_slice(), one, other)
    }

    /// Whether one has the path of one of another run.
    pub(crate) fn is_same_between(&self, one: usize, others: &Rows, other: usize) -> bool
        ensures { result ≡ same_path (path_in self.now one) (path_in others.now other) }
    {
        is_same_between(self.kept.as_slice(), one, others.kept.as_slice(), other)
    }

    /// How many numbers stand in front of the paths of both.
    pub(crate) fn common(&self, one: usize, other: usize) -> usize
        ensures { result ≡ common (path_in self.now one) (path_in self.now other) }
    {
        common(self.kept.as_slice(), one, other)
    }

    /// Whether the path of an instance leads to a child, up to there.
    pub(crate) fn leads_to(&self, place: usize, at: usize, child: usize) -> bool
        requires { at < length (path_in self.now place) }
        ensures { result ≡ same_path (path_in self.now child) (take (at + 1) (path_in self.now place)) }
    {
        let kept = self.kept.as_slice();
        let depth = row_at(kept, place).depth;
        let long = row_at(kept, child).depth;
        long == at + 1 && is_same_way(kept, child, above(kept, place, depth - long), long)
    }

    /// The numbers of its path.
    pub(crate) fn path_of(&self, place: usize) -> Result<Vec<u64>, Memory>
        ensures { IfOk result (λ numbers. numbers.items ≡ path_in self.now place) }
    {
        path_of(*self.kept.allocator(), self.kept.as_slice(), place)
    }
}
