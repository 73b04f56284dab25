//! The pairs of accesses of a run that meet and are not ordered, the first of each entry, and how many are related alike.

ghost use Rattle.std.specs.Prelude.{◌≡◌, ◌<◌, ◌++◌, ◌∷◌, [], ℕ, List, length, min, option_map, take, IfOk, OnOk};
ghost use Rattle.std.specs.List.{All};
ghost use Rattle.cilk_log_replay.specs.machine.model.labelled.Labelled.{Labelled};
ghost use Rattle.cilk_log_replay.specs.machine.model.Event.{Event};
ghost use Rattle.cilk_races.specs.declared.streak.Streak.TheVariants.{Thread, Locks};
ghost use Rattle.cilk_races.specs.Links.{AreLinked, ArePast, bucket_at};
ghost use Rattle.cilk_races.specs.Kept.{Blocked};
ghost use Rattle.cilk_races.specs.Paired.{Pairs, Within, between, entries_up_to, is_told, pair_of, pairs_told, touch_at, touches_of, with_earlier, with_entry};
ghost use Rattle.cilk_races.specs.Races.{count_of, entries_of, pairs_of, same_entry, same_relation};
ghost use Rattle.cilk_races.specs.PairWords.{relation_named};

use crate::alike::are_of_thread;
use crate::hashing::hash_of;
use crate::links::Links;
use crate::may_meet::{meet, same_variable, share_one};
use crate::relation::{Relation, relation_of};
use crate::rows::Rows;
use crate::touch::Touch;
use cilk_log_replay::Memory;
use std::alloc::Global;

/// Two accesses, by their places among those of a run, and how the program relates their steps.
#[derive(Clone, Copy)]
pub struct Pair {
    pub first: usize,
    pub second: usize,
    pub relation: Relation,
}

/// The first pair of each entry, in the order of the second access.
pub fn entries_of(alloc: Global, rows: &Rows, touches: &[Touch]) -> Result<Vec<Pair>, Memory>
    ensures entries { IfOk result (λ entries. (program : Labelled) (events : List Event) → Blocked program events rows.now
        → pairs_told rows.now touches.now entries.items ≡ entries_of (pairs_of program events (touches_of rows.now touches.now))) }
    ensures within { IfOk result (λ entries. All (Within (length touches.now)) entries.items) }
{
    let links = Links::new(alloc, rows, touches)?;
    let mut entries = Vec::new(alloc);
    for second in 0..touches.len() {
        push_entries(&mut entries, &links, rows, touches, second)?;
    }
    Ok(entries)
}

// Adds those of one access with earlier ones, which all stand in its bucket.
fn push_entries(
    entries: &mut Vec<Pair>,
    links: &Links,
    rows: &Rows,
    touches: &[Touch],
    second: usize,
) -> Result<(), Memory>
    requires there { second < length touches.now }
    requires first { length links.now.first.items ≡ length touches.now }
    requires next { length links.now.next.items ≡ length touches.now }
    requires threads { length links.now.threads.items ≡ length touches.now }
    requires locks { length links.now.locks.items ≡ length touches.now }
    requires linked { AreLinked (length touches.now) (touches_of rows.now touches.now) 0 links.now.first.items links.now.next.items }
    requires by_thread { ArePast Thread (length touches.now) (touches_of rows.now touches.now) 0 links.now.threads.items }
    requires by_locks { ArePast Locks (length touches.now) (touches_of rows.now touches.now) 0 links.now.locks.items }
    requires within { All (Within (length touches.now)) entries.old.items }
    ensures entries { OnOk result ((program : Labelled) (events : List Event) → Blocked program events rows.now → (pairs : Pairs)
        → pairs_told rows.now touches.now entries.old.items ≡ entries_of pairs
        → pairs_told rows.now touches.now entries.new.items
        ≡ entries_up_to program events (touches_of rows.now touches.now) pairs second (touch_at (touches_of rows.now touches.now) second)) }
    ensures within { OnOk result (All (Within (length touches.now)) entries.new.items) }
{
    let mut first = links.first[hash_of(rows, &touches[second]) % touches.len()];
    while first < second {
        first = push_or_pass(entries, links, rows, touches, first, second)?;
    }
    Ok(())
}

// Adds the pair of these two, if it is told, and tells which one the second is to be compared with next: none of those that are passed over
// with it makes an entry, be they by the second's own thread or with a lock that is held at the second too.
fn push_or_pass(
    entries: &mut Vec<Pair>,
    links: &Links,
    rows: &Rows,
    touches: &[Touch],
    first: usize,
    second: usize,
) -> Result<usize, Memory>
    requires before { first < second }
    requires there { second < length touches.now }
    requires next { length links.now.next.items ≡ length touches.now }
    requires threads { length links.now.threads.items ≡ length touches.now }
    requires locks { length links.now.locks.items ≡ length touches.now }
    requires linked { AreLinked (length touches.now) (touches_of rows.now touches.now) 0 links.now.first.items links.now.next.items }
    requires by_thread { ArePast Thread (length touches.now) (touches_of rows.now touches.now) 0 links.now.threads.items }
    requires by_locks { ArePast Locks (length touches.now) (touches_of rows.now touches.now) 0 links.now.locks.items }
    requires falls { bucket_at (length touches.now) (touches_of rows.now touches.now) first
        ≡ bucket_at (length touches.now) (touches_of rows.now touches.now) second }
    requires within { All (Within (length touches.now)) entries.old.items }
    ensures behind { IfOk result (λ next. first < next) }
    ensures falls { IfOk result (λ next. next < length touches.now
        → bucket_at (length touches.now) (touches_of rows.now touches.now) next ≡ bucket_at (length touches.now) (touches_of rows.now touches.now) second) }
    ensures entries { IfOk result (λ next. (program : Labelled) (events : List Event) → Blocked program events rows.now → (pairs : Pairs)
        → pairs_told rows.now touches.now entries.old.items
        ≡ entries_up_to program events (touches_of rows.now touches.now) pairs first (touch_at (touches_of rows.now touches.now) second)
        → pairs_told rows.now touches.now entries.new.items
        ≡ entries_up_to program events (touches_of rows.now touches.now) pairs (min next second) (touch_at (touches_of rows.now touches.now) second)) }
    ensures within { IfOk result (λ _. All (Within (length touches.now)) entries.new.items) }
{
    let one = &touches[first];
    let other = &touches[second];
    if are_of_thread(one, other) {
        return Ok(links.threads[first]);
    }
    if share_one(one.locks.as_slice(), other.locks.as_slice()) {
        return Ok(links.locks[first]);
    }
    push_pair(entries, rows, touches, first, second)?;
    Ok(links.next[first])
}

// Adds these two, if they meet and are not ordered, and none of those before is told as the same.
fn push_pair(
    entries: &mut Vec<Pair>,
    rows: &Rows,
    touches: &[Touch],
    first: usize,
    second: usize,
) -> Result<(), Memory>
    requires first { first < length touches.now }
    requires second { second < length touches.now }
    requires within { All (Within (length touches.now)) entries.old.items }
    ensures entries { OnOk result ((program : Labelled) (events : List Event) → Blocked program events rows.now → (pairs : Pairs)
        → pairs_told rows.now touches.now entries.old.items ≡ entries_of pairs
        → pairs_told rows.now touches.now entries.new.items ≡ entries_of (pairs
        ++ with_earlier program events (touch_at (touches_of rows.now touches.now) first ∷ []) (touch_at (touches_of rows.now touches.now) second))) }
    ensures within { OnOk result (All (Within (length touches.now)) entries.new.items) }
{
    match relation_between(rows, &touches[first], &touches[second]) {
        None => Ok(()),
        Some(relation) => {
            let pair = Pair {
                first,
                second,
                relation,
            };
            push_entry(entries, rows, touches, pair)?;
            Ok(())
        }
    }
}

// How two accesses are related that meet, if they are not ordered.
fn relation_between(rows: &Rows, a: &Touch, b: &Touch) -> Option<Relation>
    ensures { option_map relation_named result ≡ between rows.now a.now b.now }
{
    if !meet(rows, a, b) {
        return None;
    }
    let relation = relation_of(rows, a.placed, b.placed);
    if matches!(relation, Relation::Ordered) {
        None
    } else {
        Some(relation)
    }
}

// Adds a pair, unless one of those before is told as the same.
fn push_entry(
    entries: &mut Vec<Pair>,
    rows: &Rows,
    touches: &[Touch],
    pair: Pair,
) -> Result<(), Memory>
    requires pair { Within (length touches.now) pair }
    requires within { All (Within (length touches.now)) entries.old.items }
    ensures entries { OnOk result (pairs_told rows.now touches.now entries.new.items
        ≡ with_entry (pairs_told rows.now touches.now entries.old.items) (pair_of rows.now touches.now pair)) }
    ensures within { OnOk result (All (Within (length touches.now)) entries.new.items) }
{
    if is_told(rows, touches, entries.as_slice(), pair) {
        return Ok(());
    }
    entries.push(pair)?;
    Ok(())
}

// Whether one of these is told as the same.
fn is_told(rows: &Rows, touches: &[Touch], entries: &[Pair], pair: Pair) -> bool
    requires entries { All (Within (length touches.now)) entries.now }
    requires pair { Within (length touches.now) pair }
    ensures { result ≡ is_told (pairs_told rows.now touches.now entries.now) (pair_of rows.now touches.now pair) }
{
    for entry in entries {
        if same_entry(rows, touches, *entry, pair) {
            return true;
        }
    }
    false
}

// Of one variable, by the same two actions, and related alike.
fn same_entry(rows: &Rows, touches: &[Touch], one: Pair, other: Pair) -> bool
    requires one { Within (length touches.now) one }
    requires other { Within (length touches.now) other }
    ensures { result ≡ same_entry (pair_of rows.now touches.now one) (pair_of rows.now touches.now other) }
{
    let first = &touches[one.first];
    let second = &touches[one.second];
    let before = &touches[other.first];
    let behind = &touches[other.second];
    same_variable(rows, first, before)
        && (first.n == before.n
            && (second.n == behind.n && same_relation(one.relation, other.relation)))
}

/// How many of these are related so.
pub fn count_of(rows: &Rows, touches: &[Touch], relation: Relation, pairs: &[Pair]) -> usize
    ensures { result ≡ count_of (relation_named relation) (pairs_told rows.now touches.now pairs.now) }
{
    let mut count = 0;
    for pair in pairs {
        if same_relation(relation, pair.relation) {
            count += 1;
        }
    }
    count
}

fn same_relation(one: Relation, other: Relation) -> bool
    ensures { result ≡ same_relation (relation_named one) (relation_named other) }
{
    match one {
        Relation::Ordered => matches!(other, Relation::Ordered),
        Relation::Race => matches!(other, Relation::Race),
        Relation::Order => matches!(other, Relation::Order),
        Relation::Inlets => matches!(other, Relation::Inlets),
    }
}
