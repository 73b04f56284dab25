//! The view `deques`: what each worker has in its hand and in its deque.

ghost use Rattle.std.specs.Prelude.{◌≡◌, ◌<◌, length, map, option_map, slice_get, decimal, codes};
ghost use Rattle.cilk_load.specs.syntax.Appends.{Appends};
ghost use Rattle.cilk_machine_agree.specs.model.Hands.{IsWorker, worker_at, hand_of, deque_of};
ghost use Rattle.cilk_machine_agree.specs.Agrees.{name_in};
ghost use Rattle.cilk_machine_agree.specs.model.Workers.{hand_text, paths_text};
ghost use Rattle.cilk_view.specs.WhereLines.{by_worker, AllMade, deque_line, queued_text};

use crate::put::{put, put_name};
use cilk_load::Memory;
use cilk_machine_agree::{Hands, Tree};

/// A line for each of so many workers.
pub(crate) fn put_deques(
    out: &mut String,
    tree: &Tree,
    hands: &Hands,
    workers: u8,
) -> Result<(), Memory>
    requires workers { workers ≡ length hands.now }
    requires made { AllMade tree.now.nodes hands.now }
    ensures { Appends result out.old out.new (by_worker (deque_line tree.now.nodes) 1 hands.now) }
{
    for before in 0..workers {
        put_place(out, tree, hands, before + 1)?;
    }
    Ok(())
}

fn put_place(out: &mut String, tree: &Tree, hands: &Hands, worker: u8) -> Result<(), Memory>
    requires worker { IsWorker hands.now worker }
    requires made { AllMade tree.now.nodes hands.now }
    ensures { Appends result out.old out.new (deque_line tree.now.nodes worker (worker_at hands.now worker)) }
{
    write!(out, "{worker}: hand ")?;
    put_hand(out, tree, hands, worker)?;
    put(out, " deque")?;
    put_deque(out, tree, hands, worker)?;
    put(out, "\n")
}

fn put_hand(out: &mut String, tree: &Tree, hands: &Hands, worker: u8) -> Result<(), Memory>
    requires worker { IsWorker hands.now worker }
    requires made { AllMade tree.now.nodes hands.now }
    ensures { Appends result out.old out.new (hand_text (option_map (name_in tree.now.nodes) (hand_of hands.now worker))) }
{
    match hands.hand(worker) {
        None => put(out, "-"),
        Some(frame) => put_name(out, tree, frame.id()),
    }
}

// The frames of the deque from top to bottom.
fn put_deque(out: &mut String, tree: &Tree, hands: &Hands, worker: u8) -> Result<(), Memory>
    requires worker { IsWorker hands.now worker }
    requires made { AllMade tree.now.nodes hands.now }
    ensures { Appends result out.old out.new (paths_text (map (name_in tree.now.nodes) (deque_of hands.now worker))) }
{
    for i in 0..hands.len(worker) {
        put_queued(out, tree, hands, worker, i)?;
    }
    Ok(())
}

// Frame i of the deque, behind a space.
fn put_queued(
    out: &mut String,
    tree: &Tree,
    hands: &Hands,
    worker: u8,
    i: usize,
) -> Result<(), Memory>
    requires worker { IsWorker hands.now worker }
    requires there { i < length (deque_of hands.now worker) }
    requires made { AllMade tree.now.nodes hands.now }
    ensures { Appends result out.old out.new (queued_text tree.now.nodes (slice_get (deque_of hands.now worker) i)) }
{
    match hands.queued(worker, i) {
        None => Ok(()),
        Some(frame) => {
            put(out, " ")?;
            put_name(out, tree, frame.id())
        }
    }
}
