//! The view `where`, without its line on the position: where each worker goes on.

ghost use Rattle.std.specs.Prelude.{◌≡◌, length, decimal, codes};
ghost use Rattle.cilk_load.specs.syntax.Appends.{Appends};
ghost use Rattle.cilk_machine_agree.specs.model.Hands.{IsWorker, worker_at};
ghost use Rattle.cilk_view.specs.WhereLines.{by_worker, AllMade, where_line, line_number};

use crate::put::{put, put_name};
use cilk_load::{Loaded, Memory};
use cilk_machine_agree::{Hands, Tree};

/// The line on which action n stands.
pub(crate) fn line_number(loaded: &Loaded, n: u32) -> u32
    ensures { result ≡ line_number loaded.now n }
{
    loaded.line_of(n).unwrap_or(0)
}

/// A line for each of so many workers.
pub(crate) fn put_where_lines(
    out: &mut String,
    loaded: &Loaded,
    tree: &Tree,
    hands: &Hands,
    workers: u8,
) -> Result<(), Memory>
    requires workers { workers ≡ length hands.now }
    requires made { AllMade tree.now.nodes hands.now }
    ensures { Appends result out.old out.new (by_worker (where_line loaded.now tree.now.nodes) 1 hands.now) }
{
    for before in 0..workers {
        put_where_line(out, loaded, tree, hands, before + 1)?;
    }
    Ok(())
}

fn put_where_line(
    out: &mut String,
    loaded: &Loaded,
    tree: &Tree,
    hands: &Hands,
    worker: u8,
) -> Result<(), Memory>
    requires worker { IsWorker hands.now worker }
    requires made { AllMade tree.now.nodes hands.now }
    ensures { Appends result out.old out.new (where_line loaded.now tree.now.nodes worker (worker_at hands.now worker)) }
{
    write!(out, "worker {worker}")?;
    match hands.hand(worker) {
        None => put(out, " idle\n"),
        Some(frame) => {
            put(out, " at ")?;
            put_name(out, tree, frame.id())?;
            let line = line_number(loaded, frame.node(frame.depth() - 1));
            write!(out, " line {line}\n")?;
            Ok(())
        }
    }
}
