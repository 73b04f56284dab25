//! Accesses of a run with which no later one has to be compared: each is told as an earlier one is, or is read and no later one of its bucket
//! writes. A mark that is missing costs time alone, so no clause says that all are made.

ghost use Rattle.std.specs.Prelude.{◌≡◌, length, replicate, false, IfOk};
ghost use Rattle.cilk_races.specs.Links.{AreLeftOut};
ghost use Rattle.cilk_races.specs.Paired.{touches_of};

use crate::hashing::hash_of;
use crate::rows::Rows;
use crate::touch::Touch;
use crate::twins::twins_of;
use cilk_log_replay::Memory;
use std::alloc::Global;

/// A mark for each of them.
pub(crate) fn left_out(alloc: Global, rows: &Rows, touches: &[Touch]) -> Result<Vec<bool>, Memory>
    ensures size { IfOk result (λ marks. length marks.items ≡ length touches.now) }
    ensures left { IfOk result (λ marks. AreLeftOut (length touches.now) (touches_of rows.now touches.now) marks.items) }
{
    let mut marks = twins_of(alloc, touches)?;
    let mut written = vec![in alloc; false; touches.len()]?;
    leave_reads_out(rows, touches, written.as_mut_slice(), marks.as_mut_slice());
    Ok(marks)
}

// Goes through the accesses from the last one on, and keeps of each bucket whether one writes.
fn leave_reads_out(rows: &Rows, touches: &[Touch], written: &mut [bool], marks: &mut [bool])
    requires written { written.old ≡ replicate (length touches.now) false }
    requires size { length marks.old ≡ length touches.now }
    requires left { AreLeftOut (length touches.now) (touches_of rows.now touches.now) marks.old }
    ensures size { length marks.new ≡ length touches.now }
    ensures left { AreLeftOut (length touches.now) (touches_of rows.now touches.now) marks.new }
{
    let mut place = touches.len();
    while 0 < place {
        place -= 1;
        let touch = &touches[place];
        let bucket = hash_of(rows, touch) % touches.len();
        if touch.access.writes {
            written[bucket] = true;
        } else if !written[bucket] {
            marks[place] = true;
        }
    }
}
