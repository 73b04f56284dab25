//! What is kept of an instance of a run.

ghost use Rattle.std.specs.Prelude.{◌≡◌};
ghost use Rattle.cilk_races.specs.Ways.{row_at};

/// Its parent by place, and no path: instances that lie deep have long ones.
#[derive(Clone, Copy)]
pub(crate) struct Row {
    /// The place of the parent. The root stands for its own.
    pub parent: usize,
    /// How many instances stand above it.
    pub depth: usize,
    /// Which of all children of its parent it is, from 1 on.
    pub ordinal: u64,
    /// How many `sync`s its parent had passed at its birth.
    pub block: u64,
    /// How many `sync`s it passed.
    pub syncs: u64,
    /// How many children it spawned.
    pub children: u64,
    /// The hash of its path.
    pub hash: usize,
}

/// That of the root, before any choice.
pub(crate) const ROOT: Row = Row {
    parent: 0,
    depth: 0,
    ordinal: 0,
    block: 0,
    syncs: 0,
    children: 0,
    hash: 0,
};

/// That of the instance at a place. What was not born is like the root.
pub(crate) fn row_at(rows: &[Row], place: usize) -> Row
    ensures { result ≡ row_at rows.now place }
{
    match rows.get(place) {
        None => ROOT,
        Some(row) => *row,
    }
}
