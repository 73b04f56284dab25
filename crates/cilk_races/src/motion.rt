//! What a choice that was made again did, by the places of instances.

ghost use Rattle.std.specs.Prelude.{◌≡◌, length, unwrap_or};
ghost use Rattle.cilk_log_replay.specs.machine.labelled.Bodies.{label};
ghost use Rattle.cilk_log_replay.specs.machine.spawn.Nodes.{node_at};
ghost use Rattle.cilk_races.specs.Acts.{act_of};
ghost use Rattle.cilk_races.specs.Motions.{acted, born, delivered, ended, fewer, inlet_left, motion_of, place_among, trapped};

use crate::cell::{Cell, cell_at, next};
use crate::nature::nature_of;
use cilk_log_replay::{Did, Id, Loaded, Machine};

/// A step of an instance.
#[derive(Clone, Copy)]
pub struct Motion {
    /// The instance.
    pub place: usize,
    /// The child whose value the step takes, or whose inlet it is of; a thread's step has none.
    pub taking: Option<usize>,
    /// Whether it waited for all children.
    pub joins: bool,
    /// Whether it spawns a child.
    pub bears: bool,
    /// How many bodies the instance runs behind it, above the procedure's own.
    pub above: u64,
    /// The child whose value the inlet among them takes, if there is one.
    pub inlet: Option<usize>,
}

/// The step by which a machine came to where it stands, if it did more than to move a frame.
pub fn motion_of(machine: &Machine, cells: &[Cell], did: &Did) -> Option<Motion>
    ensures { result ≡ motion_of machine.now.program machine.now.machine.nodes cells.now did.now }
{
    match *did {
        Did::Moved => None,
        Did::Acted(id, n) => Some(acted(machine.loaded(), cells, place_among(cells, id), n)),
        Did::Spawned(_, _) => Some(born(cells, parent_of(machine, cells))),
        Did::Delivered(id, n) => Some(delivered(
            machine.loaded(),
            cells,
            place_among(cells, id),
            n,
        )),
        Did::Returned(id, _) | Did::Ended(id) => Some(ended(cells, place_among(cells, id))),
        Did::Trapped(_, id, _) => Some(trapped(cells, place_among(cells, id))),
    }
}

// The place of an id. What was not born goes by the path of the root.
fn place_among(cells: &[Cell], id: Id) -> usize
    ensures { result ≡ place_among (length cells.now) id }
{
    if id.number() < cells.len() {
        id.number()
    } else {
        0
    }
}

// The parent of the child that was born last, of which nothing is kept yet.
fn parent_of(machine: &Machine, cells: &[Cell]) -> usize
    ensures { result ≡ unwrap_or (node_at machine.now.machine.nodes (length cells.now)).parent 0 }
{
    match machine.parent(Id::new(cells.len())) {
        Some(parent) => parent.number(),
        None => 0,
    }
}

// It took action n, in its thread or in an inlet.
fn acted(loaded: &Loaded, cells: &[Cell], place: usize, n: u32) -> Motion
    ensures { result ≡ acted (act_of (label loaded.now) n) cells.now place }
{
    let nature = nature_of(loaded, n);
    let cell = cell_at(cells, place);
    let (above, inlet) = if nature.leaves {
        without_top(cell.above, cell.taking)
    } else if nature.calls {
        (next(cell.above), cell.taking)
    } else {
        (cell.above, cell.taking)
    };
    Motion {
        place,
        taking: cell.taking,
        joins: nature.waits,
        bears: false,
        above,
        inlet,
    }
}

// The bodies above the procedure's own, without the top one.
fn without_top(above: u64, taking: Option<usize>) -> (u64, Option<usize>)
    ensures above { result.0 ≡ fewer above }
    ensures inlet { result.1 ≡ inlet_left above taking }
{
    if above < 2 {
        (0, None)
    } else {
        (above - 1, taking)
    }
}

// It spawned a child.
fn born(cells: &[Cell], place: usize) -> Motion
    ensures { result ≡ born cells.now place }
{
    let cell = cell_at(cells, place);
    Motion {
        place,
        taking: None,
        joins: false,
        bears: true,
        above: cell.above,
        inlet: cell.taking,
    }
}

// The value of this child was taken.
fn delivered(loaded: &Loaded, cells: &[Cell], child: usize, n: u32) -> Motion
    ensures { result ≡ delivered (act_of (label loaded.now) n) cells.now child }
{
    let place = cell_at(cells, child).parent.unwrap_or(0);
    let cell = cell_at(cells, place);
    let (above, inlet) = if nature_of(loaded, n).goes_through {
        (next(cell.above), Some(child))
    } else {
        (cell.above, cell.taking)
    };
    Motion {
        place,
        taking: Some(child),
        joins: false,
        bears: false,
        above,
        inlet,
    }
}

// It is no more.
fn ended(cells: &[Cell], place: usize) -> Motion
    ensures { result ≡ ended cells.now place }
{
    let cell = cell_at(cells, place);
    Motion {
        place,
        taking: None,
        joins: true,
        bears: false,
        above: cell.above,
        inlet: cell.taking,
    }
}

// It met a trap.
fn trapped(cells: &[Cell], place: usize) -> Motion
    ensures { result ≡ trapped cells.now place }
{
    let cell = cell_at(cells, place);
    Motion {
        place,
        taking: cell.taking,
        joins: false,
        bears: false,
        above: cell.above,
        inlet: cell.taking,
    }
}
