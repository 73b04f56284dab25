//! What is kept of an instance while the choices of a run are made again.

ghost use Rattle.std.specs.Prelude.{◌≡◌, slice_set};
ghost use Rattle.cilk_races.specs.Cells.{cell_at, next, no_cell};

/// What is kept of an instance. Instances go by their places in the order of birth, which are their ids.
#[derive(Clone, Copy)]
pub struct Cell {
    /// Its parent; the root has none.
    pub parent: Option<usize>,
    /// How many instances stand one above another, down to it.
    pub depth: u64,
    /// How many bodies it runs above its procedure's own.
    pub above: u64,
    /// The child whose value the inlet among them takes, if there is one.
    pub taking: Option<usize>,
    /// The greatest rank of its spawn and of the steps of its thread.
    pub thread: u64,
    /// The greatest rank of what it waits for at a `sync`.
    pub joined: u64,
    /// The greatest rank of what takes its value.
    pub taken: u64,
}

// What stands at a place that no instance has.
const NO_CELL: Cell = Cell {
    parent: None,
    depth: 0,
    above: 0,
    taking: None,
    thread: 0,
    joined: 0,
    taken: 0,
};

impl Cell {
    /// The root, at the start of the program.
    pub(crate) fn root() -> Cell
        ensures { result ≡ record no_cell { depth = 1 } }
    {
        Cell {
            depth: 1,
            ..NO_CELL
        }
    }
}

/// What is kept of the instance at a place.
pub(crate) fn cell_at(cells: &[Cell], place: usize) -> Cell
    ensures { result ≡ cell_at cells.now place }
{
    match cells.get(place) {
        Some(cell) => *cell,
        None => NO_CELL,
    }
}

/// This is kept of it from now on.
pub(crate) fn put(cells: &mut Vec<Cell>, place: usize, cell: Cell)
    ensures { cells.new.items ≡ slice_set cells.old.items place cell }
{
    if place < cells.len() {
        cells[place] = cell;
    }
}

/// One more, where that is a number of 64 bits. No list of choices is so long that it is not.
pub(crate) fn next(n: u64) -> u64
    ensures { result ≡ next n }
{
    n.saturating_add(1)
}
