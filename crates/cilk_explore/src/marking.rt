//! Which logs lead on to where no choice is possible, as their links tell it.

ghost use Rattle.std.specs.Prelude.{◌≡◌, ◌<◌, ℕ, true, false, length, Some, IfOk, IfSome, IfNone, slice_get};
ghost use Rattle.cilk_explore.specs.Marking.{mark_of, MayBeMarked, Stays, StaysAt, AreSound, AreWholeFrom, AreMarks, unmarked};

use crate::links::Links;
use cilk_machine::Memory;
use std::alloc::Global;

/// A mark for each log that was looked at: whether along links one can be reached that has none.
pub(crate) fn marks_of(alloc: Global, links: &Links) -> Result<Vec<bool>, Memory>
    ensures { IfOk result (λ marks. AreMarks links.now.past marks.items) }
{
    let mut marks = vec![in alloc; false; links.len()]?;
    loop {
        if !mark_more(links, marks.as_mut_slice()) {
            return Ok(marks);
        }
    }
}

// Marks what may be marked, the last logs first, since most links lead on to later ones. Whether there was any.
fn mark_more(links: &Links, marks: &mut [bool]) -> bool
    requires size { length marks.old ≡ length links.now.past }
    requires sound { AreSound links.now.past marks.old }
    ensures sound { AreSound links.now.past marks.new }
    ensures fewer { result ≡ true → unmarked marks.new < unmarked marks.old }
    ensures whole { result ≡ false → AreWholeFrom 0 links.now.past marks.new }
{
    let mut more = false;
    let mut left = marks.len();
    while 0 < left {
        left -= 1;
        if mark(links, left, marks) {
            more = true;
        }
    }
    more
}

// Marks the log of this number, if it has no mark and may be marked. Whether it was.
fn mark(links: &Links, number: usize, marks: &mut [bool]) -> bool
    requires there { number < length marks.old }
    requires size { length marks.old ≡ length links.now.past }
    requires sound { AreSound links.now.past marks.old }
    ensures sound { AreSound links.now.past marks.new }
    ensures fewer { result ≡ true → unmarked marks.new < unmarked marks.old }
    ensures same { result ≡ false → marks.new ≡ marks.old }
    ensures stays { result ≡ false → StaysAt number links.now.past marks.new }
{
    if has_mark(marks, number) {
        return false;
    }
    if may_be_marked(links.of(number), marks) {
        marks[number] = true;
        return true;
    }
    false
}

// Whether a log that has these links may be marked.
fn may_be_marked(own: &[u32], marks: &[bool]) -> bool
    ensures may { result ≡ true → MayBeMarked own.now marks.now }
    ensures stays { result ≡ false → Stays own.now marks.now }
{
    if own.is_empty() {
        return true;
    }
    for i in 0..own.len() {
        if has_mark(marks, own[i] as usize) {
            return true;
        }
    }
    false
}

fn has_mark(marks: &[bool], number: usize) -> bool
    ensures { result ≡ mark_of marks.now number }
{
    if marks.len() <= number {
        return false;
    }
    marks[number]
}

/// The first log without a mark.
pub(crate) fn first_unmarked(marks: &[bool]) -> Option<usize>
    ensures some { IfSome result (λ k. slice_get marks.now k ≡ Some false) }
    ensures first { IfSome result (λ k. (j : ℕ) → j < k → mark_of marks.now j ≡ true) }
    ensures none { IfNone result ((j : ℕ) → j < length marks.now → mark_of marks.now j ≡ true) }
{
    for k in 0..marks.len() {
        if !marks[k] {
            return Some(k);
        }
    }
    None
}
