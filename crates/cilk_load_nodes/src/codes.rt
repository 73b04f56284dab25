//! The arguments of calls, spawns and `printf`, as expressions over slots.

ghost use Rattle.std.specs.Prelude.{◌≡◌};

use crate::code::Code;
use std::marker::Model;

/// Arguments from left to right, which contracts see as a list.
#[derive(Drop)]
pub struct Codes {
    items: Vec<Code>,
}

impl Model for Codes {
    ghost use Rattle.std.specs.Prelude.{List};
    ghost use Rattle.std.specs.Coded.{coded_list};
    ghost use Rattle.cilk_model.specs.labelled.Term.{Term};
    ghost use Rattle.cilk_load_nodes.specs.Coding.{coded_Term};
    ghost use Rattle.cilk_load_nodes.specs.declared.slot.Slot.{Slot};

    ghost Value = { List (Term Slot) };

    ghost coded = { coded_list coded_Term };

    ghost view = { λ c. c.items.items };
}

impl Codes {
    pub fn new(items: Vec<Code>) -> Codes
        ensures { result ≡ items.items }
    {
        Codes { items }
    }

    pub fn as_slice(&self) -> &[Code]
        ensures { result.now ≡ self.now }
    {
        self.items.as_slice()
    }
}
