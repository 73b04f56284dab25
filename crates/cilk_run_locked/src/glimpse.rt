//! What a worker sees of its step. The workers of `cilk_run::run` do without (`Table::begin_turn`).

ghost use Rattle.std.specs.Prelude.{◌≡◌};
ghost use Rattle.cilk_machine.specs.step.Peeks.{peek_of};

use cilk_machine::Peek;
use std::marker::Model;

/// What a worker saw of its next step, while it had the lock.
#[derive(Drop)]
pub struct Glimpse {
    pub(crate) worker: u8,
    pub(crate) peek: Peek,
}

impl Model for Glimpse {
    ghost use Rattle.cilk_machine.specs.step.Peeks.{peek_of};
    ghost use Rattle.cilk_machine.specs.nodes.Coding.{coded_Term};
    ghost use Rattle.cilk_run_locked.specs.Glimpses as seen;
    ghost use Rattle.std.specs.Coded.{codes};

    ghost Value = { seen.Glimpse };

    ghost coded = { Prim.hlevel (codes, coded_Term) };

    ghost view = { λ g. record { worker = g.worker; peek = peek_of g.peek } };
}

impl Glimpse {
    pub(crate) fn new(worker: u8, peek: Peek) -> Glimpse
        ensures worker { result.worker ≡ worker }
        ensures peek { result.peek ≡ peek_of peek }
    {
        Glimpse { worker, peek }
    }
}
