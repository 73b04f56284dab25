//! The cases of a `switch` in the tables, in the order of the text.

ghost use Rattle.std.specs.Prelude.{◌≡◌};
ghost use Rattle.cilk_load_nodes.specs.Table.{case_of};

use crate::case::Case;
use std::marker::Model;

/// Cases in the order of their labels, which contracts see as a list.
#[derive(Drop)]
pub struct Cases {
    items: Vec<Case>,
}

impl Model for Cases {
    ghost use Rattle.std.specs.Prelude.{List};
    ghost use Rattle.cilk_load_nodes.specs.declared.case.Case.{Case};

    ghost Value = { List Case };

    ghost view = { λ c. c.items.items };
}

impl Cases {
    pub fn new(items: Vec<Case>) -> Cases
        ensures { result ≡ items.items }
    {
        Cases { items }
    }

    pub fn as_slice(&self) -> &[Case]
        ensures { result.now ≡ self.now }
    {
        self.items.as_slice()
    }

    /// The first case of a value.
    #[inline(always)]
    pub fn of(&self, value: i32) -> Option<Case>
        ensures { result ≡ case_of value self.now }
    {
        self.items.iter().find(|case| value == case.value).copied()
    }
}
