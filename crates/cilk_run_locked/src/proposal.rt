//! The value of what a worker saw of its step. The workers of `cilk_run::run` do without (`Table::begin_turn`).

ghost use Rattle.std.specs.Prelude.{◌≡◌};
ghost use Rattle.cilk_machine.specs.eval.Known.{known};
ghost use Rattle.cilk_machine.specs.labelled.Value.{value_of};
ghost use Rattle.cilk_machine.specs.step.Peeks.{peek_of};

use crate::glimpse::Glimpse;
use cilk_machine::{Peek, Trap};
use std::marker::Model;

/// What a worker saw of its next step, with the value of the expression, which was found without the lock. No other value is ever proposed.
#[derive(Drop)]
pub struct Proposal {
    worker: u8,
    peek: Peek,
    value: Result<i32, Trap>,
}

impl Model for Proposal {
    ghost use Rattle.std.specs.Prelude.{◌≡◌};
    ghost use Rattle.cilk_machine.specs.nodes.Coding.{coded_Term};
    ghost use Rattle.cilk_machine.specs.eval.Known.{known};
    ghost use Rattle.cilk_machine.specs.labelled.Value.{value_of};
    ghost use Rattle.cilk_machine.specs.step.Peeks.{peek_of};
    ghost use Rattle.cilk_run_locked.specs.Glimpses.{Proposed};
    ghost use Rattle.std.specs.Coded.{codes};

    ghost Value = { Proposed };

    ghost coded = { Prim.hlevel (codes, coded_Term) };

    ghost view = { λ p. record { worker = p.worker; peek = peek_of p.peek; value = p.value } };

    ghost invariant = { λ p. p.value ≡ value_of (known p.peek.values.items) p.peek.code };
}

/// Evaluates what was seen. It takes no memory, and needs no lock.
pub fn propose(glimpse: Glimpse) -> Proposal
    ensures worker { result.worker ≡ glimpse.worker }
    ensures peek { result.peek ≡ glimpse.peek }
    ensures value { result.value ≡ value_of (known glimpse.peek.values) glimpse.peek.code }
{
    let Glimpse { worker, peek } = glimpse;
    let value = peek.value();
    Proposal {
        worker,
        peek,
        value,
    }
}

impl Proposal {
    pub(crate) fn worker(&self) -> u8
        ensures { result ≡ self.now.worker }
    {
        self.worker
    }

    pub(crate) fn peek(&self) -> &Peek
        ensures peek { peek_of result.now ≡ self.now.peek }
    {
        &self.peek
    }

    pub(crate) fn value(&self) -> Result<i32, Trap>
        ensures { result ≡ value_of (known self.now.peek.values) self.now.peek.code }
    {
        self.value
    }
}
