//! Whether the program orders two steps of a run, told by what is kept of their instances.

ghost use Rattle.std.specs.Prelude.{◌≡◌, ◌<◌, length};
ghost use Rattle.cilk_races.specs.Kept.{path_in};
ghost use Rattle.cilk_races.specs.Order.{if_so, race};
ghost use Rattle.cilk_races.specs.Related.{child_by, inlets_in, relation_in, value_in, within_by};
ghost use Rattle.cilk_races.specs.PairWords.{relation_named};

use crate::rows::Rows;
use crate::touch::Placed;

/// How the program relates two steps.
#[derive(Clone, Copy)]
pub enum Relation {
    Ordered,
    /// Below two children of an instance, or below one and in its thread or an inlet.
    Race,
    /// In one instance, an inlet and the thread: in either order.
    Order,
    /// In one instance, two inlets.
    Inlets,
}

/// That of two steps, the first of which was taken first.
pub fn relation_of(rows: &Rows, a: Placed, b: Placed) -> Relation
    ensures { relation_named result ≡ relation_in rows.now a b }
{
    let at = rows.common(a.place, b.place);
    if at < rows.depth(a.place) {
        if at < rows.depth(b.place) {
            race_if(rows.block(a.place, at) == rows.block(b.place, at))
        } else {
            beside(rows, b, a.place, at)
        }
    } else if at < rows.depth(b.place) {
        beside(rows, a, b.place, at)
    } else {
        within_one(rows, a, b)
    }
}

// A step of an instance beside what goes on in or below a child, whose number stands there on the path of the other instance.
fn beside(rows: &Rows, own: Placed, other: usize, at: usize) -> Relation
    requires { at < length (path_in rows.now other) }
    ensures { relation_named result ≡ child_by rows.now own.taking own other at }
{
    match own.taking {
        None => race_if(
            rows.number(other, at) <= own.children && own.syncs == rows.block(other, at),
        ),
        Some(child) => race_if(
            !rows.leads_to(other, at, child) && rows.last(child) == rows.block(other, at),
        ),
    }
}

fn race_if(so: bool) -> Relation
    ensures { relation_named result ≡ if_so so race }
{
    if so {
        Relation::Race
    } else {
        Relation::Ordered
    }
}

// Two steps of one instance.
fn within_one(rows: &Rows, a: Placed, b: Placed) -> Relation
    ensures { relation_named result ≡ within_by rows.now a.taking b.taking a b }
{
    match a.taking {
        None => match b.taking {
            None => Relation::Ordered,
            Some(child) => beside_value(rows, a, child),
        },
        Some(child) => match b.taking {
            None => beside_value(rows, b, child),
            Some(other) => both_inlets(rows, child, other),
        },
    }
}

// A thread's step beside what takes the value of the child.
fn beside_value(rows: &Rows, own: Placed, child: usize) -> Relation
    ensures { relation_named result ≡ value_in rows.now own child }
{
    let last = rows.depth(child).saturating_sub(1);
    if rows.number(child, last) <= own.children && own.syncs == rows.last(child) {
        Relation::Order
    } else {
        Relation::Ordered
    }
}

fn both_inlets(rows: &Rows, child: usize, other: usize) -> Relation
    ensures { relation_named result ≡ inlets_in rows.now child other }
{
    if !rows.is_same(child, other) && rows.last(child) == rows.last(other) {
        Relation::Inlets
    } else {
        Relation::Ordered
    }
}
