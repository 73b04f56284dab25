//! Expressions whose variables are slots.

use crate::slot::Slot;
use cilk_model::{BinOp, UnOp};
use std::marker::Model;

/// An expression over slots, which contracts see as a `Term`: what it says, and not where it lies.
#[cycle(code)]
pub struct Code {
    pub node: CodeNode,
}

// To drop it elsewhere is to call this, and its parts' drops are proved here alone.
impl Drop for Code {
    fn drop(self) {
        let Code { node: _node } = self;
    }
}

/// The outermost form of an expression (C 1990, 6.3).
#[cycle(code)]
#[derive(Drop)]
pub enum CodeNode {
    /// A number; its value is Overflow above 2147483647.
    Number(u32),
    Variable(Slot),
    /// An array and its subscript.
    Element(Slot, Box<Code>),
    /// Cilk's `SYNCHED`: 1 or 0.
    Synched,
    Unary(UnOp, Box<Code>),
    Binary(BinOp, Box<Code>, Box<Code>),
    /// A test, the value where it is not 0, and the value where it is 0.
    Choose(Box<Code>, Box<Code>, Box<Code>),
}

impl Model for Code {
    ghost use Rattle.cilk_model.specs.labelled.Term.{Term};
    ghost use Rattle.cilk_load_nodes.specs.Coding.{coded_Term};
    ghost use Rattle.cilk_load_nodes.specs.declared.slot.Slot.{Slot};

    ghost Value = { Term Slot };

    ghost coded = { coded_Term };

    ghost use Rattle.cilk_load_nodes.specs.View.{term_of};
    ghost use Rattle.cilk_load_nodes.specs.Size.{term_size};

    ghost view = { λ code. term_of code.node };

    ghost size = { term_size };

    ghost use Rattle.cilk_load_nodes.specs.Falls.{deep_le-term_size};

    ghost size_decreases = { λ code h. deep_le-term_size code.node };
}
