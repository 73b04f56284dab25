//! The view `tree`: a line for every instance that was ever made.

ghost use Rattle.std.specs.Prelude.{◌≡◌, ◌<◌, ◌++◌, length, codes, decimal, true, All, IfOk, string_bytes};
ghost use Rattle.cilk_load.specs.syntax.Appends.{Appends};
ghost use Rattle.cilk_load.specs.labelled.Bodies.{label};
ghost use Rattle.cilk_machine_agree.specs.model.Run.{Position};
ghost use Rattle.cilk_machine_agree.specs.model.Hands.{IsWorker, worker_at, deque_of};
ghost use Rattle.cilk_machine_agree.specs.frame.Frames.{top_of};
ghost use Rattle.cilk_machine_agree.specs.spawn.Nodes.{node_at, is_live};
ghost use Rattle.cilk_machine_agree.specs.model.ViewTrees.{tree_text, waiting_text, aborted_text};
ghost use Rattle.cilk_view.specs.WhereLines.{line_number};
ghost use Rattle.cilk_view.specs.Finding.{frame_live};
ghost use Rattle.cilk_view.specs.Shows.{ShowsAt, Shows};
ghost use Rattle.cilk_view.specs.Sorting.{IsMade, AreMade};
ghost use Rattle.cilk_view.specs.Trees.{procedure_name, is_of, is_among, holder_by, place_by, live_by, state_by, line_by, lines_by};

use crate::finding::{frame_live, frame_queued};
use crate::put::put;
use crate::shown::Shown;
use crate::where_lines::line_number;
use cilk_load::Memory;
use cilk_machine_agree::{Fate, Frame, Hands, Id, Path, Tree};
use std::alloc::Global;

/// A line for each instance ever made, in the order of their paths.
pub(crate) fn tree_text(alloc: Global, shown: &Shown) -> Result<String, Memory>
    requires { Shows shown.now }
    ensures { IfOk result (λ text. (at : Position) → ShowsAt shown.now at → string_bytes text ≡ tree_text (label shown.now.loaded.now) at) }
{
    let mut made = made_paths(alloc, shown.tree)?;
    made.sort()?;
    let mut out = String::new(alloc);
    put_lines(&mut out, shown, made.as_slice())?;
    Ok(out)
}

// A line for each of these instances, of which each goes by its path and its number.
fn put_lines(out: &mut String, shown: &Shown, made: &[(Vec<u32>, usize)]) -> Result<(), Memory>
    requires shows { Shows shown.now }
    requires made { All (IsMade shown.now.tree.now.nodes) made.now }
    ensures { Appends result out.old out.new (lines_by shown.now.loaded.now shown.now.tree.now.nodes shown.now.hands.now made.now) }
{
    for (path, number) in made {
        put_line(out, shown, path.as_slice(), Id::new(*number))?;
    }
    Ok(())
}

// The path of each instance and its number.
fn made_paths(alloc: Global, tree: &Tree) -> Result<Vec<(Vec<u32>, usize)>, Memory>
    ensures { IfOk result (λ made. AreMade tree.now.nodes (length tree.now.nodes) made.items) }
{
    let mut made = Vec::new(alloc);
    for number in 0..tree.next_id().number() {
        let path = tree.path_of(Id::new(number))?;
        made.push((Vec::from_slice(alloc, path.as_slice())?, number))?;
    }
    Ok(made)
}

fn put_line(out: &mut String, shown: &Shown, path: &[u32], id: Id) -> Result<(), Memory>
    requires shows { Shows shown.now }
    requires there { id < length shown.now.tree.now.nodes }
    ensures { Appends result out.old out.new (line_by shown.now.loaded.now shown.now.tree.now.nodes shown.now.hands.now id path.now) }
{
    Path::put_text(out, path)?;
    put(out, " ")?;
    put_state(out, shown, id)?;
    put(out, "\n")
}

/// What stands in the line of an instance behind its path and a space.
pub(crate) fn put_state(out: &mut String, shown: &Shown, id: Id) -> Result<(), Memory>
    requires shows { Shows shown.now }
    requires there { id < length shown.now.tree.now.nodes }
    ensures { Appends result out.old out.new
        (state_by shown.now.loaded.now shown.now.tree.now.nodes shown.now.hands.now id (node_at shown.now.tree.now.nodes id).fate) }
{
    match shown.tree.fate(id) {
        Fate::Live => put_live(out, shown, id),
        Fate::Returned => {
            put_procedure(out, shown, id)?;
            put(out, " returned")
        }
        Fate::Delivered(choice) => {
            put_procedure(out, shown, id)?;
            write!(out, " delivered {choice}")?;
            Ok(())
        }
        Fate::Aborted(choice) => {
            put_procedure(out, shown, id)?;
            write!(out, " aborted {choice}")?;
            Ok(())
        }
    }
}

// The name of its procedure.
fn put_procedure(out: &mut String, shown: &Shown, id: Id) -> Result<(), Memory>
    requires { id < length shown.now.tree.now.nodes }
    ensures { Appends result out.old out.new (procedure_name shown.now.loaded.now (node_at shown.now.tree.now.nodes id).procedure) }
{
    match shown.loaded.body(shown.tree.procedure(id)) {
        None => Ok(()),
        Some(body) => put(out, body.name.as_str()),
    }
}

fn put_live(out: &mut String, shown: &Shown, id: Id) -> Result<(), Memory>
    requires shows { Shows shown.now }
    requires live { is_live (node_at shown.now.tree.now.nodes id) ≡ true }
    requires there { id < length shown.now.tree.now.nodes }
    ensures { Appends result out.old out.new
        (live_by shown.now.loaded.now shown.now.tree.now.nodes shown.now.hands.now id (frame_live shown.now.tree.now.nodes shown.now.hands.now id)) }
{
    match frame_live(shown.tree, shown.hands, shown.workers, id) {
        None => Ok(()),
        Some(frame) => {
            put_procedure(out, shown, id)?;
            put(out, " ")?;
            put_place(out, shown, id)?;
            put_rest(out, shown, id, frame)
        }
    }
}

// The line on which it goes on, the deliveries that wait for it, and whether it was marked.
fn put_rest(out: &mut String, shown: &Shown, id: Id, frame: &Frame) -> Result<(), Memory>
    requires { id < length shown.now.tree.now.nodes }
    ensures { Appends result out.old out.new (codes " line " ++ (decimal (line_number shown.now.loaded.now (top_of frame.now).node)
        ++ (waiting_text (length (node_at shown.now.tree.now.nodes id).waiting) ++ aborted_text (node_at shown.now.tree.now.nodes id).aborted))) }
{
    let line = line_number(shown.loaded, frame.node(frame.depth() - 1));
    write!(out, " line {line}")?;
    put_waiting(out, shown.tree.waiting(id))?;
    if shown.tree.is_aborted(id) {
        put(out, " aborted")?;
    }
    Ok(())
}

fn put_waiting(out: &mut String, count: usize) -> Result<(), Memory>
    ensures { Appends result out.old out.new (waiting_text count) }
{
    if count == 0 {
        return Ok(());
    }
    write!(out, " waiting {count}")?;
    Ok(())
}

fn put_place(out: &mut String, shown: &Shown, id: Id) -> Result<(), Memory>
    requires shows { Shows shown.now }
    requires there { id < length shown.now.tree.now.nodes }
    ensures { Appends result out.old out.new (place_by shown.now.hands.now id (node_at shown.now.tree.now.nodes id).parked) }
{
    match shown.tree.parked(id) {
        Some(_) => put(out, "parked"),
        None => put_holder(out, shown.hands, shown.workers, id),
    }
}

fn put_holder(out: &mut String, hands: &Hands, workers: u8, id: Id) -> Result<(), Memory>
    requires { workers ≡ length hands.now }
    ensures { Appends result out.old out.new (holder_by id 1 hands.now) }
{
    for before in 0..workers {
        let worker = before + 1;
        if is_in_hand(hands, worker, id) {
            write!(out, "hand {worker}")?;
            return Ok(());
        }
        if is_queued(hands, worker, id) {
            write!(out, "deque {worker}")?;
            return Ok(());
        }
    }
    Ok(())
}

fn is_in_hand(hands: &Hands, worker: u8, id: Id) -> bool
    requires { IsWorker hands.now worker }
    ensures { result ≡ is_of id (worker_at hands.now worker).hand }
{
    match hands.hand(worker) {
        None => false,
        Some(frame) => frame.id() == id,
    }
}

fn is_queued(hands: &Hands, worker: u8, id: Id) -> bool
    requires { IsWorker hands.now worker }
    ensures { result ≡ is_among id (deque_of hands.now worker) }
{
    frame_queued(hands, worker, id).is_some()
}
