//! Prototypes of functions and procedures, without bodies.

use crate::return_type::ReturnType;
use crate::word::Word;
use std::marker::Model;

/// A declaration of a C function or of a Cilk procedure, with how many parameters it has (C 1990, 6.5.4.3).
#[derive(Drop)]
pub struct Prototype {
    pub is_cilk: bool,
    pub returns: ReturnType,
    pub name: Word,
    pub count: u32,
}

impl Model for Prototype {
    ghost use Rattle.cilk_tree_syntax.specs.Tree as tree;
    ghost use Rattle.cilk_tree_syntax.specs.ProgramCoding.{coded_Prototype};

    ghost Value = { tree.Prototype };

    ghost coded = { coded_Prototype };

    ghost view = { λ p. record { is_cilk = p.is_cilk; returns = p.returns; name = p.name; count = p.count } };
}
