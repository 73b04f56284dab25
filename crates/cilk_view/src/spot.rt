//! How far a text is told, and how it is told on.

ghost use Rattle.std.specs.Prelude.{◌≡◌, ◌<◌, ◌≤◌, ◌+◌, ◌++◌, [], length, drop, reverse, vec_capacity, vec_len, true, false};
ghost use Rattle.cilk_view.specs.Ups.{AreUp, linked_path};
ghost use Rattle.cilk_view.specs.Entries.{NamesWithin, entries_text, rest_text, work_left};

use crate::entry::Entry;
use crate::link::Link;
use crate::portion::Portion;
use cilk_machine_agree::Id;

/// What is put at once at most of a path: a slash, and the digits of a number.
const MOST: usize = 41;

/// Where a text is that is told: in this entry, behind so many bytes of it, and before that the last numbers of its path. The numbers stand from
/// the last one on.
#[derive(Drop)]
pub(crate) struct Spot {
    pub(crate) at: usize,
    pub(crate) from: usize,
    pub(crate) numbers: Vec<u32>,
}

/// The next bytes of the text, as many as the portion has room for, or nearly so.
pub(crate) fn tell(
    links: &[Option<Link>],
    entries: &[Entry],
    spot: &mut Spot,
    portion: &mut Portion,
)
    requires up { AreUp links.now }
    requires named { NamesWithin links.now entries.now }
    requires room { length links.now ≤ vec_capacity spot.old.numbers }
    ensures told { rest_text links.now entries.now spot.old ≡ portion.new ++ rest_text links.now entries.now spot.new }
    ensures end { portion.new ≡ [] → rest_text links.now entries.now spot.old ≡ [] }
    ensures room { length links.now ≤ vec_capacity spot.new.numbers }
{
    portion.clear();
    while MOST <= portion.room() {
        if !tell_some(links, entries, spot, portion) {
            return;
        }
    }
}

// A number, a part of an entry's text, or that the entry is done. False where nothing is left.
#[tactic(auto, using(crate::proofs::Entries::one_number))]
fn tell_some(
    links: &[Option<Link>],
    entries: &[Entry],
    spot: &mut Spot,
    portion: &mut Portion,
) -> bool
    requires up { AreUp links.now }
    requires named { NamesWithin links.now entries.now }
    requires room { length links.now ≤ vec_capacity spot.old.numbers }
    requires place { length portion.old + 41 ≤ 65536 }
    ensures told { portion.old ++ rest_text links.now entries.now spot.old ≡ portion.new ++ rest_text links.now entries.now spot.new }
    ensures less { result ≡ true → work_left links.now entries.now spot.new < work_left links.now entries.now spot.old }
    ensures end { result ≡ false → rest_text links.now entries.now spot.new ≡ [] }
    ensures room { length links.now ≤ vec_capacity spot.new.numbers }
{
    match spot.numbers.pop() {
        Some(number) => {
            portion.put_number(number);
            true
        }
        None => tell_text(links, entries, spot, portion),
    }
}

// The same behind the numbers of a path.
fn tell_text(
    links: &[Option<Link>],
    entries: &[Entry],
    spot: &mut Spot,
    portion: &mut Portion,
) -> bool
    requires up { AreUp links.now }
    requires named { NamesWithin links.now entries.now }
    requires room { length links.now ≤ vec_capacity spot.old.numbers }
    requires place { length portion.old + 41 ≤ 65536 }
    requires none { spot.old.numbers.items ≡ [] }
    ensures told { portion.old ++ rest_text links.now entries.now spot.old ≡ portion.new ++ rest_text links.now entries.now spot.new }
    ensures less { result ≡ true → work_left links.now entries.now spot.new < work_left links.now entries.now spot.old }
    ensures end { result ≡ false → rest_text links.now entries.now spot.new ≡ [] }
    ensures room { length links.now ≤ vec_capacity spot.new.numbers }
{
    match entries.get(spot.at) {
        None => false,
        Some(entry) => {
            let text = entry.text.as_bytes();
            if spot.from < text.len() {
                let (_told, rest) = text.split_at(spot.from);
                let count = rest.len().min(portion.room());
                let (front, _behind) = rest.split_at(count);
                portion.put(front);
                spot.from += count;
            } else {
                spot.at += 1;
                begin(links, entries, spot);
            }
            true
        }
    }
}

/// At the start of an entry.
pub(crate) fn begin(links: &[Option<Link>], entries: &[Entry], spot: &mut Spot)
    requires up { AreUp links.now }
    requires named { NamesWithin links.now entries.now }
    requires none { spot.old.numbers.items ≡ [] }
    requires room { length links.now ≤ vec_capacity spot.old.numbers }
    ensures told { rest_text links.now entries.now spot.new ≡ entries_text links.now (drop spot.old.at entries.now) }
    ensures at { spot.new.at ≡ spot.old.at }
    ensures room { length links.now ≤ vec_capacity spot.new.numbers }
{
    spot.from = 0;
    match entries.get(spot.at) {
        None => {}
        Some(entry) => match entry.name {
            None => {}
            Some(id) => climb(links, &mut spot.numbers, id),
        },
    }
}

// The numbers of a path from the last one on.
#[tactic(auto, using(crate::proofs::Entries::up_all))]
fn climb(links: &[Option<Link>], numbers: &mut Vec<u32>, id: Id)
    requires up { AreUp links.now }
    requires there { id < length links.now }
    requires none { numbers.old.items ≡ [] }
    requires room { length links.now ≤ vec_capacity numbers.old }
    ensures path { reverse numbers.new.items ≡ linked_path links.now id }
    ensures room { vec_capacity numbers.new ≡ vec_capacity numbers.old }
{
    let mut at = id;
    while let Some(link) = links[at.number()] {
        numbers.push_reserved(link.ordinal);
        at = link.parent;
    }
}
