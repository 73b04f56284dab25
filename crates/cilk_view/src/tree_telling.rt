//! The view `tree`, told in portions.

ghost use Rattle.std.specs.Prelude.{◌≡◌, ◌<◌, List, ℕ, length, flat_map, IfOk};
ghost use Rattle.cilk_load.specs.labelled.Bodies.{label};
ghost use Rattle.cilk_machine_agree.specs.model.Path.{Path};
ghost use Rattle.cilk_machine_agree.specs.model.Run.{Position};
ghost use Rattle.cilk_machine_agree.specs.model.ViewTrees.{tree_text};
ghost use Rattle.cilk_machine_agree.specs.spawn.Nodes.{path_at};
ghost use Rattle.cilk_view.specs.Shows.{ShowsAt, Shows};
ghost use Rattle.cilk_view.specs.Trees.{line_by, TellsLines};
ghost use Rattle.cilk_view.specs.Ups.{links_of};
ghost use Rattle.cilk_view.specs.Kin.{KinSorted};
ghost use Rattle.cilk_view.specs.Entries.{NamesWithin, TellsEntries, entries_text};
ghost use Rattle.cilk_view.specs.Following.{all_paths};

use crate::entry::{Entry, add_name};
use crate::following::follower;
use crate::kin::kin_of;
use crate::link::{Link, links_of};
use crate::put::put;
use crate::shown::Shown;
use crate::telling::Telling;
use crate::tree::put_state;
use cilk_load::Memory;
use cilk_machine_agree::Id;
use std::alloc::Global;

/// A line for each instance ever made, in the order of their paths.
pub(crate) fn tell_tree(alloc: Global, shown: &Shown) -> Result<Telling, Memory>
    requires { Shows shown.now }
    ensures { IfOk result (λ told. (at : Position) → ShowsAt shown.now at → told ≡ tree_text (label shown.now.loaded.now) at) }
{
    // Brings its clauses into the proof.
    let _next = shown.tree.next_id();
    let links = links_of(alloc, shown.tree)?;
    let entries = entries_by(alloc, shown, links.as_slice())?;
    Telling::new(alloc, links, entries)
}

fn entries_by(alloc: Global, shown: &Shown, links: &[Option<Link>]) -> Result<Vec<Entry>, Memory>
    requires shows { Shows shown.now }
    requires links { links.now ≡ links_of shown.now.tree.now.nodes }
    ensures named { IfOk result (λ entries. NamesWithin links.now entries.items) }
    ensures told { IfOk result (λ entries. (f : Path → List ℕ) → TellsLines shown.now.loaded.now shown.now.tree.now.nodes shown.now.hands.now f
        → entries_text links.now entries.items ≡ flat_map f (all_paths shown.now.tree.now.nodes)) }
{
    let kin = kin_of(alloc, links)?;
    tree_entries(alloc, shown, links, kin.as_slice())
}

fn tree_entries(
    alloc: Global,
    shown: &Shown,
    links: &[Option<Link>],
    kin: &[(usize, (usize, usize))],
) -> Result<Vec<Entry>, Memory>
    requires shows { Shows shown.now }
    requires links { links.now ≡ links_of shown.now.tree.now.nodes }
    requires kin { KinSorted shown.now.tree.now.nodes kin.now }
    ensures named { IfOk result (λ entries. NamesWithin links.now entries.items) }
    ensures told { IfOk result (λ entries. (f : Path → List ℕ) → TellsLines shown.now.loaded.now shown.now.tree.now.nodes shown.now.hands.now f
        → entries_text links.now entries.items ≡ flat_map f (all_paths shown.now.tree.now.nodes)) }
{
    // Brings its clauses into the proof.
    let _next = shown.tree.next_id();
    let mut entries = Vec::new(alloc);
    let mut at = Some(Id::new(0));
    loop {
        match at {
            None => return Ok(entries),
            Some(id) => {
                add_line(alloc, &mut entries, shown, links, id)?;
                at = follower(links, kin, id);
            }
        }
    }
}

fn add_line(
    alloc: Global,
    entries: &mut Vec<Entry>,
    shown: &Shown,
    links: &[Option<Link>],
    id: Id,
) -> Result<(), Memory>
    requires shows { Shows shown.now }
    requires links { links.now ≡ links_of shown.now.tree.now.nodes }
    requires there { id < length shown.now.tree.now.nodes }
    ensures { TellsEntries links.now result entries.old.items entries.new.items
        (line_by shown.now.loaded.now shown.now.tree.now.nodes shown.now.hands.now id (path_at shown.now.tree.now.nodes id)) }
{
    let mut text = String::from_str(alloc, " ")?;
    put_state(&mut text, shown, id)?;
    put(&mut text, "\n")?;
    add_name(alloc, entries, links, id, text)
}
