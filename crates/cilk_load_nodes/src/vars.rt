//! The list of the variables of one body, parameters first.

ghost use Rattle.std.specs.Prelude.{◌≡◌};

use crate::var::Var;
use std::marker::Model;

/// Variables in the order of their declarations, which contracts see as a list.
#[derive(Drop)]
pub struct Vars {
    items: Vec<Var>,
}

impl Model for Vars {
    ghost use Rattle.std.specs.Prelude.{List};
    ghost use Rattle.cilk_load_nodes.specs.declared.var.Var.{Var};

    ghost Value = { List Var };

    ghost view = { λ v. v.items.items };
}

impl Vars {
    pub fn new(items: Vec<Var>) -> Vars
        ensures { result ≡ items.items }
    {
        Vars { items }
    }

    pub fn as_slice(&self) -> &[Var]
        ensures { result.now ≡ self.now }
    {
        self.items.as_slice()
    }
}
