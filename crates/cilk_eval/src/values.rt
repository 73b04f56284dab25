//! Cells, and the values of several expressions.

ghost use Rattle.std.specs.Prelude.{◌≡◌, ◌<◌, max, IfOk};
ghost use Rattle.std.specs.List.{All};
ghost use Rattle.cilk_eval.specs.labelled.Value.{values_of};
ghost use Rattle.cilk_eval.specs.nodes.Areas.{cells_of, slot_cell, sizes_of, environment, SlotsLieWithin};
ghost use Rattle.cilk_eval.specs.model.Values as model;
ghost use Rattle.cilk_eval.specs.effects.Effects.{index_of};
ghost use Rattle.cilk_eval.specs.effects.Fits.{FitsPlace};

use crate::{Area, Arguments, BinOp, Code, Memory, Slot, SlotPlace, Slots, Trap, apply, eval};
use std::alloc::Global;

/// What a cell holds, or 0 where its area has no such cell.
#[inline(always)]
pub fn held(slots: &Slots, slot: Slot, index: u32) -> i32
    ensures { result ≡ slot_cell (cells_of slots.now) slot index }
{
    let cells = match slot.area {
        Area::Own => slots.own,
        Area::Outer => slots.outer,
        Area::Global => slots.globals,
    };
    match cells.get(slot.offset as usize + index as usize) {
        None => 0,
        Some(cell) => *cell,
    }
}

/// What an assignment makes of the old value and the new one (C 1990, 6.3.16; Cilk 5.4 manual, `spawn`).
#[inline(always)]
pub fn combined(op: Option<BinOp>, old: i32, value: i32) -> Result<i32, Trap>
    ensures { result ≡ model.combined op old value }
{
    match op {
        None => Ok(value),
        Some(op) => apply(op, old, value),
    }
}

/// The index of the cell that a place is: its subscript, whose range is tested (C 1990, 6.3.2.1).
#[inline(always)]
pub(crate) fn index_of(slots: &Slots, place: &SlotPlace) -> Result<u32, Trap>
    requires { FitsPlace (sizes_of (cells_of slots.now)) place.now }
    ensures value { result ≡ index_of (cells_of slots.now) place.now }
    ensures within { IfOk result (λ k. k < max place.now.slot.length 1) }
{
    match &place.subscript {
        None => Ok(0),
        Some(code) => match u32::try_from(eval(slots, code)?) {
            Ok(index) if index < place.slot.length => Ok(index),
            _ => Err(Trap::Index),
        },
    }
}

/// What expressions are from left to right, or the first trap (C 1990, 6.3.2.2).
pub(crate) fn values_of(
    alloc: Global,
    slots: &Slots,
    codes: &[Code],
) -> Result<Result<Arguments, Trap>, Memory>
    requires { All (SlotsLieWithin (sizes_of (cells_of slots.now))) codes.now }
    ensures { IfOk result (λ values. values ≡ values_of (environment (cells_of slots.now)) codes.now) }
{
    let mut values = Vec::with_capacity(alloc, codes.len())?;
    for code in codes {
        match eval(slots, code) {
            Err(trap) => return Ok(Err(trap)),
            Ok(value) => values.push(value)?,
        }
    }
    Ok(Ok(Arguments::new(values)))
}
