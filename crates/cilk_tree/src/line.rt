//! The canonical text of what stands on one line of a body.

ghost use Rattle.cilk_tree_syntax.specs.MoveView.{shape_of, taker_of};
ghost use Rattle.cilk_tree_syntax.specs.Appends.{Appends};
ghost use Rattle.cilk_tree_syntax.specs.MoveText.{before_text, behind_text, call_text, decl_text, index_text, length_text, locking_text, move_text};
ghost use Rattle.cilk_tree_syntax.specs.MoveText.{op_text, place_text, print_text, receiver_text, return_text, shape_text, spawn_text, target_text};

use crate::expr::{put_expr, put_exprs, put_next_exprs};
use crate::literal::put_literal;
use crate::put::{put, put_number};
use cilk_tree_syntax::{
    BinOp, Decl, Expr, Literal, LockAction, Memory, Move, MoveNode, Place, Shape, Taker, Target,
    Word,
};

fn put_call(out: &mut String, callee: &Word, arguments: &[Expr]) -> Result<(), Memory>
    ensures { Appends result out.old out.new (call_text callee.now arguments.now) }
{
    put(out, callee.as_str())?;
    put(out, "(")?;
    put_exprs(out, arguments)?;
    put(out, ")")
}

fn put_place(out: &mut String, place: &Place) -> Result<(), Memory>
    ensures { Appends result out.old out.new (place_text place.now) }
{
    put(out, place.name.as_str())?;
    put_index(out, &place.index)
}

fn put_index(out: &mut String, index: &Option<Expr>) -> Result<(), Memory>
    ensures { Appends result out.old out.new (index_text index.now) }
{
    match index {
        None => Ok(()),
        Some(index) => {
            put(out, "[")?;
            put_expr(out, index)?;
            put(out, "]")
        }
    }
}

fn put_target(out: &mut String, target: &Target) -> Result<(), Memory>
    ensures { Appends result out.old out.new (target_text target.now) }
{
    put_place(out, &target.place)?;
    put(out, " ")?;
    put_op(out, target.op)?;
    put(out, "= ")
}

fn put_op(out: &mut String, op: Option<BinOp>) -> Result<(), Memory>
    ensures { Appends result out.old out.new (op_text op) }
{
    match op {
        None => Ok(()),
        Some(op) => put(out, op.mark()),
    }
}

fn put_receiver(out: &mut String, target: &Option<Target>) -> Result<(), Memory>
    ensures { Appends result out.old out.new (receiver_text target.now) }
{
    match target {
        None => Ok(()),
        Some(target) => put_target(out, target),
    }
}

pub(crate) fn put_move(out: &mut String, what: &Move) -> Result<(), Memory>
    ensures { Appends result out.old out.new (move_text what.now) }
{
    match &what.node {
        MoveNode::Assign(target, value) => {
            put_target(out, target)?;
            put_expr(out, value)
        }
        MoveNode::Adjust(place, by) => {
            put_place(out, place)?;
            put(out, by.mark())
        }
        MoveNode::Call(target, callee, arguments) => {
            put_receiver(out, target)?;
            put_call(out, callee, arguments)
        }
    }
}

pub(crate) fn put_spawn(
    out: &mut String,
    taker: &Taker,
    callee: &Word,
    arguments: &[Expr],
) -> Result<(), Memory>
    ensures { Appends result out.old out.new (spawn_text (taker_of taker.now) callee.now arguments.now) }
{
    put_before_spawn(out, taker)?;
    put(out, "spawn ")?;
    put_call(out, callee, arguments)?;
    put_behind_spawn(out, taker)
}

// What stands before the word `spawn`.
fn put_before_spawn(out: &mut String, taker: &Taker) -> Result<(), Memory>
    ensures { Appends result out.old out.new (before_text (taker_of taker.now)) }
{
    match taker {
        Taker::Nothing => Ok(()),
        Taker::Into(target) => put_target(out, target),
        Taker::Through(inlet, _) => {
            put(out, inlet.as_str())?;
            put(out, "(")
        }
    }
}

// What stands behind the call that is spawned.
fn put_behind_spawn(out: &mut String, taker: &Taker) -> Result<(), Memory>
    ensures { Appends result out.old out.new (behind_text (taker_of taker.now)) }
{
    match taker {
        Taker::Nothing | Taker::Into(_) => Ok(()),
        Taker::Through(_, others) => {
            put_next_exprs(out, others)?;
            put(out, ")")
        }
    }
}

pub(crate) fn put_print(
    out: &mut String,
    format: &Literal,
    arguments: &[Expr],
) -> Result<(), Memory>
    ensures { Appends result out.old out.new (print_text format.now arguments.now) }
{
    put(out, "printf(")?;
    put_literal(out, format)?;
    put_next_exprs(out, arguments)?;
    put(out, ")")
}

pub(crate) fn put_locking(out: &mut String, action: LockAction, name: &Word) -> Result<(), Memory>
    ensures { Appends result out.old out.new (locking_text action name.now) }
{
    put(out, action.word())?;
    put(out, "(")?;
    put(out, name.as_str())?;
    put(out, ")")
}

pub(crate) fn put_return(out: &mut String, value: &Option<Expr>) -> Result<(), Memory>
    ensures { Appends result out.old out.new (return_text value.now) }
{
    match value {
        None => put(out, "return"),
        Some(value) => {
            put(out, "return ")?;
            put_expr(out, value)
        }
    }
}

pub(crate) fn put_decl(out: &mut String, decl: &Decl) -> Result<(), Memory>
    ensures { Appends result out.old out.new (decl_text decl.now) }
{
    put(out, "int ")?;
    put(out, decl.name.as_str())?;
    put_shape(out, &decl.shape)
}

fn put_shape(out: &mut String, shape: &Shape) -> Result<(), Memory>
    ensures { Appends result out.old out.new (shape_text (shape_of shape.now)) }
{
    match shape {
        Shape::Variable(None) => Ok(()),
        Shape::Variable(Some(value)) => {
            put(out, " = ")?;
            put_expr(out, value)
        }
        Shape::Array(length) => put_length(out, *length),
    }
}

// The length of an array, between its brackets.
pub(crate) fn put_length(out: &mut String, length: u32) -> Result<(), Memory>
    ensures { Appends result out.old out.new (length_text length) }
{
    put(out, "[")?;
    put_number(out, length)?;
    put(out, "]")
}
