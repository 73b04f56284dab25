//! Ways up from instances to the root.

ghost use Rattle.std.specs.Prelude.{◌≡◌, ◌==◌, if◌then◌else◌, IfOk};
ghost use Rattle.cilk_log_replay.specs.machine.model.Path.{same_path};
ghost use Rattle.cilk_races.specs.Related.{common};
ghost use Rattle.cilk_races.specs.Ways.{above, path_of, path_up};

use crate::row::{Row, row_at};
use cilk_log_replay::Memory;
use std::alloc::Global;

/// The instance so many levels above a place.
pub(crate) fn above(rows: &[Row], place: usize, levels: usize) -> usize
    ensures { result ≡ above rows.now levels place }
{
    let mut at = place;
    let mut left = levels;
    while 0 < left {
        at = row_at(rows, at).parent;
        left -= 1;
    }
    at
}

/// Whether the ways up from two instances of one run are the same, so far.
pub(crate) fn is_same_way(rows: &[Row], one: usize, other: usize, depth: usize) -> bool
    ensures { result ≡ same_path (path_up rows.now depth one) (path_up rows.now depth other) }
{
    let mut first = one;
    let mut second = other;
    let mut left = depth;
    while 0 < left {
        if first == second {
            return true;
        }
        let row = row_at(rows, first);
        let beside = row_at(rows, second);
        if row.ordinal != beside.ordinal {
            return false;
        }
        first = row.parent;
        second = beside.parent;
        left -= 1;
    }
    true
}

/// Whether the paths of two instances of one run are the same.
pub(crate) fn is_same(rows: &[Row], one: usize, other: usize) -> bool
    ensures { result ≡ same_path (path_of rows.now one) (path_of rows.now other) }
{
    let depth = row_at(rows, one).depth;
    depth == row_at(rows, other).depth && is_same_way(rows, one, other, depth)
}

/// Whether the paths of instances of two runs are the same.
pub(crate) fn is_same_between(rows: &[Row], one: usize, others: &[Row], other: usize) -> bool
    ensures { result ≡ same_path (path_of rows.now one) (path_of others.now other) }
{
    let depth = row_at(rows, one).depth;
    depth == row_at(others, other).depth && is_same_way_between(rows, one, others, other, depth)
}

fn is_same_way_between(rows: &[Row], one: usize, others: &[Row], other: usize, depth: usize) -> bool
    ensures { result ≡ same_path (path_up rows.now depth one) (path_up others.now depth other) }
{
    let mut first = one;
    let mut second = other;
    let mut left = depth;
    while 0 < left {
        let row = row_at(rows, first);
        let beside = row_at(others, second);
        if row.ordinal != beside.ordinal {
            return false;
        }
        first = row.parent;
        second = beside.parent;
        left -= 1;
    }
    true
}

/// How many numbers stand in front of the paths of two instances.
pub(crate) fn common(rows: &[Row], one: usize, other: usize) -> usize
    ensures { result ≡ common (path_of rows.now one) (path_of rows.now other) }
{
    let first = row_at(rows, one).depth;
    let second = row_at(rows, other).depth;
    let depth = first.min(second);
    common_way(
        rows,
        above(rows, one, first - depth),
        above(rows, other, second - depth),
        depth,
    )
}

// The same of two that lie so deep.
fn common_way(rows: &[Row], one: usize, other: usize, depth: usize) -> usize
    ensures { result ≡ common (path_up rows.now depth one) (path_up rows.now depth other) }
{
    let mut first = one;
    let mut second = other;
    let mut left = depth;
    let mut shared = depth;
    while 0 < left {
        if first == second {
            return shared;
        }
        let row = row_at(rows, first);
        let beside = row_at(rows, second);
        left -= 1;
        shared = shared_above(row, beside, left, shared);
        first = row.parent;
        second = beside.parent;
    }
    shared
}

// How many are shared, where so many stand above both, and these below.
fn shared_above(row: Row, beside: Row, level: usize, below: usize) -> usize
    ensures { result ≡ (if row.ordinal == beside.ordinal then below else level) }
{
    if row.ordinal == beside.ordinal {
        below
    } else {
        level
    }
}

/// The numbers of the path of an instance, the last of which is its own.
pub(crate) fn path_of(alloc: Global, rows: &[Row], place: usize) -> Result<Vec<u64>, Memory>
    ensures { IfOk result (λ numbers. numbers.items ≡ path_of rows.now place) }
{
    let mut numbers = Vec::new(alloc);
    let mut at = place;
    let mut left = row_at(rows, place).depth;
    while 0 < left {
        let row = row_at(rows, at);
        numbers.push(row.ordinal)?;
        at = row.parent;
        left -= 1;
    }
    numbers.reverse();
    Ok(numbers)
}
