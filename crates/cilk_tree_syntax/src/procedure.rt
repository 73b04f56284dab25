//! Definitions of functions and procedures, with their bodies.

use crate::block::Block;
use crate::parameters::Parameters;
use crate::return_type::ReturnType;
use crate::word::Word;
use std::marker::Model;

/// A definition of a C function or of a Cilk procedure (C 1990, 6.7.1; Cilk 5.4 manual, `cilk`).
#[derive(Drop)]
pub struct Proc {
    pub is_cilk: bool,
    pub returns: ReturnType,
    pub name: Word,
    pub parameters: Parameters,
    pub body: Block,
}

impl Model for Proc {
    ghost use Rattle.cilk_tree_syntax.specs.Tree as tree;
    ghost use Rattle.cilk_tree_syntax.specs.ProgramCoding.{coded_Proc};

    ghost Value = { tree.Proc };

    ghost coded = { coded_Proc };

    ghost use Rattle.cilk_tree_syntax.specs.ProgramView.{parameters_of};

    ghost view = { λ p. record { is_cilk = p.is_cilk; returns = p.returns; name = p.name; parameters = parameters_of p.parameters; body = p.body } };
}
