//! Which cells expressions read, as far as they are evaluated.

ghost use Rattle.std.specs.Prelude.{◌≡◌, ◌++◌, ◌∷◌, [], map, is_some, Ok, OnOk};
ghost use Rattle.std.specs.List.{All};
ghost use Rattle.cilk_machine_plan.specs.labelled.Value.{settled_by_left, value_of};
ghost use Rattle.cilk_machine_plan.specs.nodes.Areas.{SlotsLieWithin, cells_of, environment, sizes_of};
ghost use Rattle.cilk_machine_plan.specs.effects.Fits.{FitsAct, FitsPlace, FitsTaker, FitsTarget};
ghost use Rattle.cilk_machine_step.specs.Reads.{element_reads, reads_in, reads_in_all};
ghost use Rattle.cilk_machine_step.specs.Shown.{act_reads, place_reads, subscript_reads, taker_reads};
ghost use Rattle.cilk_machine_step.specs.CellWords.{read_of};

use crate::read::Read;
use cilk_load::{Action, BinOp, Code, CodeNode, Memory, Slot, SlotPlace, Slots, Taker, Target};
use cilk_machine_plan::eval;

/// Adds what an expression reads, from left to right. `&&`, `||` and `?:` evaluate only the operands that they need.
#[cycle(push_reads)]
pub(crate) fn push_reads(reads: &mut Vec<Read>, slots: &Slots, code: &Code) -> Result<(), Memory>
    requires { SlotsLieWithin (sizes_of (cells_of slots.now)) code.now }
    ensures { OnOk result (map read_of reads.new.items ≡ map read_of reads.old.items ++ reads_in (environment (cells_of slots.now)) code.now) }
{
    match &code.node {
        CodeNode::Number(_) => Ok(()),
        CodeNode::Variable(slot) => push(reads, Read::Cell(*slot, 0)),
        CodeNode::Synched => push(reads, Read::Synched),
        CodeNode::Unary(_, operand) => push_reads(reads, slots, operand),
        CodeNode::Element(slot, subscript) => {
            push_reads(reads, slots, subscript)?;
            push_element(reads, slots, *slot, subscript)
        }
        CodeNode::Binary(op, left, right) => {
            push_reads(reads, slots, left)?;
            match eval(slots, left) {
                Err(_) => Ok(()),
                Ok(left) => {
                    if settles(*op, left) {
                        Ok(())
                    } else {
                        push_reads(reads, slots, right)
                    }
                }
            }
        }
        CodeNode::Choose(test, first, second) => {
            push_reads(reads, slots, test)?;
            match eval(slots, test) {
                Err(_) => Ok(()),
                Ok(test) => push_reads(reads, slots, if test != 0 { first } else { second }),
            }
        }
    }
}

fn push(reads: &mut Vec<Read>, read: Read) -> Result<(), Memory>
    ensures { OnOk result (map read_of reads.new.items ≡ map read_of reads.old.items ++ read_of read ∷ []) }
{
    reads.push(read)?;
    Ok(())
}

// Adds the element with this subscript, if the array has it.
fn push_element(
    reads: &mut Vec<Read>,
    slots: &Slots,
    slot: Slot,
    subscript: &Code,
) -> Result<(), Memory>
    requires { SlotsLieWithin (sizes_of (cells_of slots.now)) subscript.now }
    ensures { OnOk result (map read_of reads.new.items ≡ map read_of reads.old.items
        ++ element_reads (environment (cells_of slots.now)) slot (value_of (environment (cells_of slots.now)) subscript.now)) }
{
    match eval(slots, subscript) {
        Err(_) => Ok(()),
        Ok(subscript) => match u32::try_from(subscript) {
            Ok(index) if index < slot.length => push(reads, Read::Cell(slot, index)),
            _ => Ok(()),
        },
    }
}

// Whether `&&` or `||` has a value by its left operand alone.
fn settles(op: BinOp, left: i32) -> bool
    ensures { result ≡ is_some (settled_by_left op left) }
{
    match op {
        BinOp::And => left == 0,
        BinOp::Or => left != 0,
        _ => false,
    }
}

/// Adds what expressions read, from left to right, up to the first trap.
pub(crate) fn push_all(reads: &mut Vec<Read>, slots: &Slots, codes: &[Code]) -> Result<(), Memory>
    requires { All (SlotsLieWithin (sizes_of (cells_of slots.now))) codes.now }
    ensures { OnOk result (map read_of reads.new.items ≡ map read_of reads.old.items ++ reads_in_all (environment (cells_of slots.now)) codes.now) }
{
    for code in codes {
        push_reads(reads, slots, code)?;
        if eval(slots, code).is_err() {
            return Ok(());
        }
    }
    Ok(())
}

// Adds what the subscript of a place reads, if it has one.
fn push_subscript(reads: &mut Vec<Read>, slots: &Slots, place: &SlotPlace) -> Result<(), Memory>
    requires { FitsPlace (sizes_of (cells_of slots.now)) place.now }
    ensures { OnOk result (map read_of reads.new.items
        ≡ map read_of reads.old.items ++ subscript_reads (environment (cells_of slots.now)) place.now.subscript) }
{
    match &place.subscript {
        None => Ok(()),
        Some(code) => push_reads(reads, slots, code),
    }
}

fn push_target(reads: &mut Vec<Read>, slots: &Slots, target: &Option<Target>) -> Result<(), Memory>
    requires { FitsTarget (sizes_of (cells_of slots.now)) target.now }
    ensures { OnOk result (map read_of reads.new.items ≡ map read_of reads.old.items ++ place_reads (environment (cells_of slots.now)) target.now) }
{
    match target {
        None => Ok(()),
        Some(target) => push_subscript(reads, slots, &target.place),
    }
}

fn push_taker(reads: &mut Vec<Read>, slots: &Slots, taker: &Taker) -> Result<(), Memory>
    requires { FitsTaker (sizes_of (cells_of slots.now)) taker.now }
    ensures { OnOk result (map read_of reads.new.items ≡ map read_of reads.old.items ++ taker_reads (environment (cells_of slots.now)) taker.now) }
{
    match taker {
        Taker::Nothing => Ok(()),
        Taker::Into(target) => push_subscript(reads, slots, &target.place),
        Taker::Through(_, others) => push_all(reads, slots, others.as_slice()),
    }
}

/// Adds what the expressions of an action read.
pub(crate) fn push_action(
    reads: &mut Vec<Read>,
    slots: &Slots,
    action: &Action,
) -> Result<(), Memory>
    requires { FitsAct (sizes_of (cells_of slots.now)) action.now }
    ensures { OnOk result (map read_of reads.new.items ≡ map read_of reads.old.items ++ act_reads (environment (cells_of slots.now)) action.now) }
{
    match action {
        Action::Assign(target, code) => {
            push_subscript(reads, slots, &target.place)?;
            push_reads(reads, slots, code)
        }
        Action::Call(target, _, codes) => {
            push_target(reads, slots, target)?;
            push_all(reads, slots, codes.as_slice())
        }
        Action::Spawn(taker, _, codes) => {
            push_taker(reads, slots, taker)?;
            push_all(reads, slots, codes.as_slice())
        }
        Action::Print(_, codes) => push_all(reads, slots, codes.as_slice()),
        Action::Test(code) | Action::Return(code) => push_reads(reads, slots, code),
        _ => Ok(()),
    }
}
