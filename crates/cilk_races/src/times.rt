//! How often an access of a run is made by another run of the same program.

ghost use Rattle.std.specs.Prelude.{◌≡◌, ◌≤◌, ◌&&◌, length, nat_le};
ghost use Rattle.cilk_log_replay.specs.machine.model.Path.{same_path};
ghost use Rattle.cilk_races.specs.Kept.{path_in};
ghost use Rattle.cilk_races.specs.Paired.{touches_of};
ghost use Rattle.cilk_races.specs.Races.{same_cell};
ghost use Rattle.cilk_races.specs.PairWords.{touch_of};
ghost use Rattle.cilk_races.specs.Reversals.{is_again, same_bool, times};

use crate::rows::Rows;
use crate::touch::Touch;
use cilk_log_replay::Spot;

/// How often the access is made up to that choice of the other run.
pub(crate) fn times(
    rows: &Rows,
    access: &Touch,
    choice: u64,
    others: &Rows,
    touches: &[Touch],
) -> usize
    ensures is { result ≡ times (touch_of rows.now access.now) choice (touches_of others.now touches.now) }
    ensures few { result ≤ length touches.now }
{
    let mut count = 0;
    for touch in touches {
        if is_made(rows, access, choice, others, touch) {
            count += 1;
        }
    }
    count
}

// Whether this is the access, up to that choice.
fn is_made(rows: &Rows, access: &Touch, choice: u64, others: &Rows, touch: &Touch) -> bool
    ensures { result ≡ (is_again (touch_of rows.now access.now) (touch_of others.now touch.now) && nat_le touch.now.choice choice) }
{
    is_again(rows, access, others, touch) && touch.choice <= choice
}

/// Whether both are by one instance and one action, of one cell, and both read it or both write it.
pub(crate) fn is_again(rows: &Rows, access: &Touch, others: &Rows, touch: &Touch) -> bool
    ensures { result ≡ is_again (touch_of rows.now access.now) (touch_of others.now touch.now) }
{
    same_paths(rows, access.placed.place, others, touch.placed.place)
        && (access.n == touch.n
            && (same_cell(rows, access, others, touch)
                && same_bool(access.access.writes, touch.access.writes)))
}

fn same_paths(rows: &Rows, one: usize, others: &Rows, other: usize) -> bool
    ensures { result ≡ same_path (path_in rows.now one) (path_in others.now other) }
{
    rows.is_same_between(one, others, other)
}

fn same_cell(rows: &Rows, a: &Touch, others: &Rows, b: &Touch) -> bool
    ensures { result ≡ same_cell (touch_of rows.now a.now).access.at (touch_of others.now b.now).access.at }
{
    match a.access.at {
        Spot::Global { variable, index } => match b.access.at {
            Spot::Global {
                variable: other,
                index: at,
            } => variable == other && index == at,
            _ => false,
        },
        Spot::Own { variable, index } => match b.access.at {
            Spot::Own {
                variable: other,
                index: at,
            } => same_paths(rows, a.own, others, b.own) && (variable == other && index == at),
            _ => false,
        },
        Spot::Output => matches!(b.access.at, Spot::Output),
        Spot::Synched => {
            matches!(b.access.at, Spot::Synched) && same_paths(rows, a.own, others, b.own)
        }
    }
}

fn same_bool(one: bool, other: bool) -> bool
    ensures { result ≡ same_bool one other }
{
    if one { other } else { !other }
}
