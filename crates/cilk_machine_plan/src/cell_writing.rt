//! A cell of the top activation of the frame in a hand, of its procedure's own, or of the top level, is written.

ghost use Rattle.std.specs.Prelude.{◌≡◌, Some};
ghost use Rattle.cilk_machine_agree.specs.model.Hands.{IsWorker, hand_of, with_hand};
ghost use Rattle.cilk_machine_agree.specs.frame.Cells.{frame_put, globals_put};
ghost use Rattle.cilk_machine_plan.specs.Ready.{Fits, frame_in};

use cilk_eval::Reached;
use cilk_machine_agree::{Area, Hands};

/// A cell takes a value.
#[derive(Clone, Copy)]
pub struct Writing {
    pub reached: Reached,
    pub value: i32,
}

/// Writes a cell of the top activation of the frame in the hand, of its procedure's own, or of the top level.
#[inline(always)]
pub fn write_cell(worker: u8, writing: Writing, globals: &mut Vec<i32>, hands: &mut Hands)
    requires worker { IsWorker hands.old worker }
    requires held { hand_of hands.old worker ≡ Some (frame_in hands.old worker) }
    requires fits { Fits writing.reached.slot writing.reached.index (frame_in hands.old worker) globals.old.items }
    ensures hands { hands.new ≡ with_hand hands.old worker
        (Some (frame_put writing.reached.slot writing.reached.index writing.value (frame_in hands.old worker))) }
    ensures globals { globals.new.items ≡ globals_put writing.reached.slot writing.reached.index writing.value globals.old.items }
{
    let Writing { reached, value } = writing;
    let cell = reached.slot.offset + reached.index;
    match reached.slot.area {
        Area::Own => hands.set_top_cell(worker, cell, value),
        Area::Outer => hands.set_lowest_cell(worker, cell, value),
        Area::Global => globals[cell as usize] = value,
    }
}
