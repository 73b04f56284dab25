//! The effect of an action.

ghost use Rattle.std.specs.Prelude.{◌≡◌, IfOk};
ghost use Rattle.std.specs.List.{All};
ghost use Rattle.cilk_eval.specs.nodes.Areas.{cells_of, sizes_of, SlotsLieWithin};
ghost use Rattle.cilk_eval.specs.effects.Effects.{written, assigned, awaited, started, effect_in};
ghost use Rattle.cilk_eval.specs.effects.Fits.{FitsPlace, FitsTarget, FitsTaker, FitsAct};

use crate::effect::Effect;
use crate::printing::printed;
use crate::reached::Reached;
use crate::values::{combined, held, index_of, values_of};
use crate::written::Written;
use crate::{Action, Await, Code, Memory, Receiver, Slots, Taker, Target, Trap, eval};
use std::alloc::Global;

/// What action n comes to over the cells that its activation sees, or the first trap from the left
/// (C 1990, 6.3, 6.6; Cilk 5.4 manual). Where the slots lie is the caller's to know; subscripts are tested here.
pub fn effect_of(
    alloc: Global,
    slots: &Slots,
    n: u32,
    action: &Action,
) -> Result<Result<Effect, Trap>, Memory>
    requires { FitsAct (sizes_of (cells_of slots.now)) action.now }
    ensures { IfOk result (λ effect. effect ≡ effect_in (cells_of slots.now) n action.now) }
{
    Ok(match action {
        Action::Assign(target, code) => match assigned(slots, target, code) {
            Err(trap) => Err(trap),
            Ok(written) => Ok(Effect::Writes(written.reached, written.value)),
        },
        Action::Call(target, callee, codes) => match awaited(slots, n, target) {
            Err(trap) => Err(trap),
            Ok(awaits) => match values_of(alloc, slots, codes.as_slice())? {
                Err(trap) => Err(trap),
                Ok(values) => Ok(Effect::Enters(awaits, *callee, values)),
            },
        },
        Action::Spawn(taker, callee, codes) => started(
            alloc,
            slots,
            n,
            taker,
            *callee,
            codes.as_slice(),
        )?,
        Action::Print(format, codes) => match values_of(alloc, slots, codes.as_slice())? {
            Err(trap) => Err(trap),
            Ok(values) => Ok(Effect::Prints(printed(alloc, format.as_str(), values.as_slice())?)),
        },
        Action::Locking(what, lock) => Ok(Effect::TurnsLock(*what, *lock)),
        Action::Null | Action::Break | Action::Continue | Action::Sync => Ok(Effect::Answers(1)),
        Action::Test(code) => eval(slots, code).map(Effect::Answers),
        Action::Abort => Ok(Effect::Marks),
        Action::Return(code) => eval(slots, code).map(Effect::Gives),
        Action::ReturnNothing | Action::Close => Ok(Effect::Gives(0)),
    })
}

/// What an assignment writes: the place is reached, then the value is made, and only then is it read what the place holds
/// (C 1990, 6.3.16).
#[inline(always)]
pub fn assigned(slots: &Slots, target: &Target, code: &Code) -> Result<Written, Trap>
    requires place { FitsPlace (sizes_of (cells_of slots.now)) target.now.place }
    requires code { SlotsLieWithin (sizes_of (cells_of slots.now)) code.now }
    ensures { written result ≡ assigned (cells_of slots.now) target.now code.now }
{
    let index = index_of(slots, &target.place)?;
    let value = eval(slots, code)?;
    let slot = target.place.slot;
    let value = combined(target.op, held(slots, slot, index), value)?;
    Ok(Written {
        reached: Reached { slot, index },
        value,
    })
}

// What awaits the value of call n (C 1990, 6.3.2.2).
fn awaited(slots: &Slots, n: u32, target: &Option<Target>) -> Result<Option<Await>, Trap>
    requires { FitsTarget (sizes_of (cells_of slots.now)) target.now }
    ensures { result ≡ awaited (cells_of slots.now) n target.now }
{
    match target {
        None => Ok(None),
        Some(target) => {
            let kept = index_of(slots, &target.place)?;
            Ok(Some(Await { n, index: kept }))
        }
    }
}

// Spawn n: the place, the child's arguments, and what an inlet is given besides, from left to right
// (Cilk 5.4 manual, `spawn`, `inlet`).
fn started(
    alloc: Global,
    slots: &Slots,
    n: u32,
    taker: &Taker,
    callee: u32,
    codes: &[Code],
) -> Result<Result<Effect, Trap>, Memory>
    requires taker { FitsTaker (sizes_of (cells_of slots.now)) taker.now }
    requires codes { All (SlotsLieWithin (sizes_of (cells_of slots.now))) codes.now }
    ensures { IfOk result (λ effect. effect ≡ started (cells_of slots.now) n taker.now callee codes.now) }
{
    match taker {
        Taker::Nothing => match values_of(alloc, slots, codes)? {
            Err(trap) => Ok(Err(trap)),
            Ok(values) => Ok(Ok(Effect::Starts(Receiver::Nothing, callee, values))),
        },
        Taker::Into(target) => match index_of(slots, &target.place) {
            Err(trap) => Ok(Err(trap)),
            Ok(index) => match values_of(alloc, slots, codes)? {
                Err(trap) => Ok(Err(trap)),
                Ok(values) => Ok(Ok(Effect::Starts(
                    Receiver::Place {
                        op: target.op,
                        slot: target.place.slot,
                        index,
                        spawn: n,
                    },
                    callee,
                    values,
                ))),
            },
        },
        Taker::Through(_, others) => match values_of(alloc, slots, codes)? {
            Err(trap) => Ok(Err(trap)),
            Ok(values) => match values_of(alloc, slots, others.as_slice())? {
                Err(trap) => Ok(Err(trap)),
                Ok(args) => Ok(Ok(Effect::Starts(Receiver::Call { n, args }, callee, values))),
            },
        },
    }
}
