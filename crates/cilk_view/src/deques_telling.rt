//! The view `deques`, told in portions.

ghost use Rattle.std.specs.Prelude.{◌≡◌, ◌<◌, ◌++◌, codes, decimal, length, map, option_map, slice_get, IfOk, string_bytes};
ghost use Rattle.cilk_machine_agree.specs.Agrees.{name_in};
ghost use Rattle.cilk_machine_agree.specs.model.Hands.{IsWorker, worker_at, hand_of, deque_of};
ghost use Rattle.cilk_machine_agree.specs.model.Path.{path_text};
ghost use Rattle.cilk_machine_agree.specs.model.Run.{Position};
ghost use Rattle.cilk_machine_agree.specs.spawn.Nodes.{path_at};
ghost use Rattle.cilk_machine_agree.specs.model.Workers.{deques_text, hand_text, paths_text};
ghost use Rattle.cilk_view.specs.Shows.{ShowsAt, Shows};
ghost use Rattle.cilk_view.specs.WhereLines.{AllMade, by_worker, deque_line, queued_text};
ghost use Rattle.cilk_view.specs.Ups.{links_of};
ghost use Rattle.cilk_view.specs.Entries.{NamesWithin, TellsEntries, TellsAlone, entries_text};

use crate::entry::{Entry, add_name, add_text};
use crate::link::{Link, links_of};
use crate::shown::Shown;
use crate::telling::Telling;
use cilk_load::Memory;
use cilk_machine_agree::Id;
use std::alloc::Global;

/// A line for each worker.
pub(crate) fn tell_deques(alloc: Global, shown: &Shown) -> Result<Telling, Memory>
    requires { Shows shown.now }
    ensures { IfOk result (λ told. (at : Position) → ShowsAt shown.now at → told ≡ deques_text 1 at.standing.scheduler.places) }
{
    // Brings its clauses into the proof.
    let _next = shown.tree.next_id();
    let links = links_of(alloc, shown.tree)?;
    let entries = deque_entries(alloc, shown, links.as_slice())?;
    Telling::new(alloc, links, entries)
}

fn deque_entries(alloc: Global, shown: &Shown, links: &[Option<Link>]) -> Result<Vec<Entry>, Memory>
    requires workers { shown.now.workers ≡ length shown.now.hands.now }
    requires made { AllMade shown.now.tree.now.nodes shown.now.hands.now }
    requires links { links.now ≡ links_of shown.now.tree.now.nodes }
    ensures named { IfOk result (λ entries. NamesWithin links.now entries.items) }
    ensures told { IfOk result (λ entries. entries_text links.now entries.items ≡ by_worker (deque_line shown.now.tree.now.nodes) 1 shown.now.hands.now) }
{
    let mut entries = Vec::new(alloc);
    for before in 0..shown.workers {
        add_place(alloc, &mut entries, shown, links, before + 1)?;
    }
    Ok(entries)
}

fn add_place(
    alloc: Global,
    entries: &mut Vec<Entry>,
    shown: &Shown,
    links: &[Option<Link>],
    worker: u8,
) -> Result<(), Memory>
    requires worker { IsWorker shown.now.hands.now worker }
    requires made { AllMade shown.now.tree.now.nodes shown.now.hands.now }
    requires links { links.now ≡ links_of shown.now.tree.now.nodes }
    ensures { TellsEntries links.now result entries.old.items entries.new.items
        (deque_line shown.now.tree.now.nodes worker (worker_at shown.now.hands.now worker)) }
{
    let head = head_of(alloc, worker)?;
    add_text(entries, head)?;
    add_hand(alloc, entries, shown, links, worker)?;
    add_words(alloc, entries, " deque")?;
    add_deque(alloc, entries, shown, links, worker)?;
    end_line(alloc, entries)
}

fn head_of(alloc: Global, worker: u8) -> Result<String, Memory>
    ensures { IfOk result (λ head. string_bytes head ≡ decimal worker ++ codes ": hand ") }
{
    let mut head = String::new(alloc);
    write!(head, "{worker}: hand ")?;
    Ok(head)
}

fn end_line(alloc: Global, entries: &mut Vec<Entry>) -> Result<(), Memory>
    ensures { TellsAlone result entries.old.items entries.new.items (codes "\n") }
{
    add_words(alloc, entries, "\n")
}

fn add_words(alloc: Global, entries: &mut Vec<Entry>, words: &str) -> Result<(), Memory>
    ensures { TellsAlone result entries.old.items entries.new.items words.now }
{
    add_text(entries, String::from_str(alloc, words)?)
}

fn add_hand(
    alloc: Global,
    entries: &mut Vec<Entry>,
    shown: &Shown,
    links: &[Option<Link>],
    worker: u8,
) -> Result<(), Memory>
    requires worker { IsWorker shown.now.hands.now worker }
    requires made { AllMade shown.now.tree.now.nodes shown.now.hands.now }
    requires links { links.now ≡ links_of shown.now.tree.now.nodes }
    ensures { TellsEntries links.now result entries.old.items entries.new.items
        (hand_text (option_map (name_in shown.now.tree.now.nodes) (hand_of shown.now.hands.now worker))) }
{
    match shown.hands.hand(worker) {
        None => add_words(alloc, entries, "-"),
        Some(frame) => add_frame(alloc, entries, shown, links, frame.id()),
    }
}

// The frames of the deque from top to bottom.
fn add_deque(
    alloc: Global,
    entries: &mut Vec<Entry>,
    shown: &Shown,
    links: &[Option<Link>],
    worker: u8,
) -> Result<(), Memory>
    requires worker { IsWorker shown.now.hands.now worker }
    requires made { AllMade shown.now.tree.now.nodes shown.now.hands.now }
    requires links { links.now ≡ links_of shown.now.tree.now.nodes }
    ensures { TellsEntries links.now result entries.old.items entries.new.items
        (paths_text (map (name_in shown.now.tree.now.nodes) (deque_of shown.now.hands.now worker))) }
{
    for i in 0..shown.hands.len(worker) {
        add_queued(alloc, entries, shown, links, (worker, i))?;
    }
    Ok(())
}

// The frame at this place of a worker's deque, behind a space.
fn add_queued(
    alloc: Global,
    entries: &mut Vec<Entry>,
    shown: &Shown,
    links: &[Option<Link>],
    place: (u8, usize),
) -> Result<(), Memory>
    requires worker { IsWorker shown.now.hands.now place.0 }
    requires there { place.1 < length (deque_of shown.now.hands.now place.0) }
    requires made { AllMade shown.now.tree.now.nodes shown.now.hands.now }
    requires links { links.now ≡ links_of shown.now.tree.now.nodes }
    ensures { TellsEntries links.now result entries.old.items entries.new.items
        (queued_text shown.now.tree.now.nodes (slice_get (deque_of shown.now.hands.now place.0) place.1)) }
{
    let (worker, i) = place;
    match shown.hands.queued(worker, i) {
        None => Ok(()),
        Some(frame) => add_spaced(alloc, entries, shown, links, frame.id()),
    }
}

fn add_spaced(
    alloc: Global,
    entries: &mut Vec<Entry>,
    shown: &Shown,
    links: &[Option<Link>],
    id: Id,
) -> Result<(), Memory>
    requires there { id < length shown.now.tree.now.nodes }
    requires links { links.now ≡ links_of shown.now.tree.now.nodes }
    ensures { TellsEntries links.now result entries.old.items entries.new.items (codes " " ++ path_text (path_at shown.now.tree.now.nodes id)) }
{
    add_words(alloc, entries, " ")?;
    add_frame(alloc, entries, shown, links, id)
}

fn add_frame(
    alloc: Global,
    entries: &mut Vec<Entry>,
    shown: &Shown,
    links: &[Option<Link>],
    id: Id,
) -> Result<(), Memory>
    requires there { id < length shown.now.tree.now.nodes }
    requires links { links.now ≡ links_of shown.now.tree.now.nodes }
    ensures { TellsEntries links.now result entries.old.items entries.new.items (path_text (path_at shown.now.tree.now.nodes id)) }
{
    // The body has no other use for it: the clauses alone speak of the parts that it lends.
    let _shown = shown;
    add_name(alloc, entries, links, id, String::new(alloc))
}
