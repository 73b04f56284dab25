//! Which two accesses of a run meet: of one cell, at least one a write, with no lock held at both.

ghost use Rattle.std.specs.Prelude.{◌≡◌, ◌==◌};
ghost use Rattle.std.specs.List.{list_any};
ghost use Rattle.cilk_log_replay.specs.machine.model.Path.{same_path};
ghost use Rattle.cilk_races.specs.Kept.{path_in};
ghost use Rattle.cilk_races.specs.Races.{meet, same_cell, same_variable, share_one};
ghost use Rattle.cilk_races.specs.PairWords.{touch_of};

use crate::rows::Rows;
use crate::touch::Touch;
use cilk_log_replay::Spot;

/// Whether two accesses meet.
pub fn meet(rows: &Rows, a: &Touch, b: &Touch) -> bool
    ensures { result ≡ meet (touch_of rows.now a.now) (touch_of rows.now b.now) }
{
    same_cell(rows, a, b)
        && ((a.access.writes || b.access.writes)
            && !share_one(a.locks.as_slice(), b.locks.as_slice()))
}

// Whether both are of one cell.
fn same_cell(rows: &Rows, a: &Touch, b: &Touch) -> bool
    ensures { result ≡ same_cell (touch_of rows.now a.now).access.at (touch_of rows.now b.now).access.at }
{
    match a.access.at {
        Spot::Global { variable, index } => match b.access.at {
            Spot::Global {
                variable: other,
                index: at,
            } => variable == other && index == at,
            _ => false,
        },
        Spot::Own { variable, index } => match b.access.at {
            Spot::Own {
                variable: other,
                index: at,
            } => same_instance(rows, a, b) && (variable == other && index == at),
            _ => false,
        },
        Spot::Output => matches!(b.access.at, Spot::Output),
        Spot::Synched => matches!(b.access.at, Spot::Synched) && same_instance(rows, a, b),
    }
}

/// Whether both are of one variable, of whatever element.
pub fn same_variable(rows: &Rows, a: &Touch, b: &Touch) -> bool
    ensures { result ≡ same_variable (touch_of rows.now a.now).access.at (touch_of rows.now b.now).access.at }
{
    match a.access.at {
        Spot::Global { variable, .. } => match b.access.at {
            Spot::Global {
                variable: other,
                ..
            } => variable == other,
            _ => false,
        },
        Spot::Own { variable, .. } => match b.access.at {
            Spot::Own {
                variable: other,
                ..
            } => same_instance(rows, a, b) && variable == other,
            _ => false,
        },
        Spot::Output => matches!(b.access.at, Spot::Output),
        Spot::Synched => matches!(b.access.at, Spot::Synched) && same_instance(rows, a, b),
    }
}

// Whether both are by one instance.
fn same_instance(rows: &Rows, a: &Touch, b: &Touch) -> bool
    ensures { result ≡ same_path (path_in rows.now a.now.own) (path_in rows.now b.now.own) }
{
    rows.is_same(a.own, b.own)
}

/// Whether a lock stands in both.
pub fn share_one(locks: &[usize], others: &[usize]) -> bool
    ensures { result ≡ share_one locks.now others.now }
{
    locks.iter().any(|lock| stands_in(others, *lock))
}

fn stands_in(others: &[usize], lock: usize) -> bool
    ensures { result ≡ list_any (λ l. lock == l) others.now }
{
    others.iter().any(|other| lock == *other)
}
