//! What a place comes to that takes the value of a child.

ghost use Rattle.std.specs.Prelude.{◌≡◌};
ghost use Rattle.cilk_machine_agree.specs.nodes.Areas.{cells_of, slot_cell};
ghost use Rattle.cilk_machine_agree.specs.model.Values as model;

use cilk_eval::{BinOp, Slot, Slots, Trap, combined, held};

/// What a place comes to that takes the value of a child, with the operator that stands before `spawn`: what it holds is read as the value is taken,
/// and not at the spawn (Cilk 5.4 manual, `spawn`).
#[inline(always)]
pub fn received(
    slots: &Slots,
    op: Option<BinOp>,
    slot: Slot,
    index: u32,
    value: i32,
) -> Result<i32, Trap>
    ensures { result ≡ model.combined op (slot_cell (cells_of slots.now) slot index) value }
{
    combined(op, held(slots, slot, index), value)
}
