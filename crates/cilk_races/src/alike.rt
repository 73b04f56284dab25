//! How two accesses of a run are alike, by what is kept of them. What is alike and is not told to be costs time alone, so clauses say what follows
//! from `true`.

ghost use Rattle.std.specs.Prelude.{◌≡◌, true};
ghost use Rattle.cilk_races.specs.Alike.{AreKeptOfThread, AreKeptAlike};

use crate::touch::{Placed, Touch};
use cilk_log_replay::{Access, Spot};

/// Whether nothing tells them apart but their choices: both are of one cell, with the same locks, and by one action, before and behind which their
/// instance did the same.
pub(crate) fn are_twins(a: &Touch, b: &Touch) -> bool
    ensures { result ≡ true → AreKeptAlike a.now b.now }
{
    is_same_step(a, b)
        && (is_same_access(a.access, b.access)
            && is_same_list(a.locks.as_slice(), b.locks.as_slice()))
}

/// Whether both are by the thread of one instance.
pub(crate) fn are_of_thread(a: &Touch, b: &Touch) -> bool
    ensures { result ≡ true → AreKeptOfThread a.now b.now }
{
    a.placed.place == b.placed.place
        && (is_of_thread(a.placed.taking) && is_of_thread(b.placed.taking))
}

/// Whether both are with the same locks.
pub(crate) fn have_same_locks(a: &Touch, b: &Touch) -> bool
    ensures { result ≡ true → a.now.locks.items ≡ b.now.locks.items }
{
    is_same_list(a.locks.as_slice(), b.locks.as_slice())
}

fn is_same_step(a: &Touch, b: &Touch) -> bool
    ensures own { result ≡ true → a.now.own ≡ b.now.own }
    ensures n { result ≡ true → a.now.n ≡ b.now.n }
    ensures placed { result ≡ true → a.now.placed ≡ b.now.placed }
{
    a.own == b.own && (a.n == b.n && is_same_place(a.placed, b.placed))
}

fn is_same_place(a: Placed, b: Placed) -> bool
    ensures { result ≡ true → a ≡ b }
{
    (a.place == b.place && is_same_child(a.taking, b.taking))
        && (a.syncs == b.syncs && a.children == b.children)
}

fn is_same_child(a: Option<usize>, b: Option<usize>) -> bool
    ensures { result ≡ true → a ≡ b }
{
    match a {
        None => is_of_thread(b),
        Some(child) => match b {
            None => false,
            Some(other) => child == other,
        },
    }
}

fn is_of_thread(taking: Option<usize>) -> bool
    ensures { result ≡ true → taking ≡ None }
{
    match taking {
        None => true,
        Some(_) => false,
    }
}

fn is_same_access(a: Access, b: Access) -> bool
    ensures { result ≡ true → a ≡ b }
{
    is_same_spot(a.at, b.at) && is_same_bool(a.writes, b.writes)
}

fn is_same_spot(a: Spot, b: Spot) -> bool
    ensures { result ≡ true → a ≡ b }
{
    a == b
}

fn is_same_bool(a: bool, b: bool) -> bool
    ensures { result ≡ true → a ≡ b }
{
    if a { b } else { !b }
}

fn is_same_list(a: &[usize], b: &[usize]) -> bool
    ensures { result ≡ true → a.now ≡ b.now }
{
    a == b
}
