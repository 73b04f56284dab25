//! The tree of a program that breaks no rule of the check.

ghost use Rattle.std.specs.Prelude.{◌≡◌};
ghost use Rattle.cilk_check_scopes.specs.WellFormed.{WellFormed};

use cilk_tree_syntax::Program;
use std::marker::Model;

/// A program that passed the check. What runs it stands on this alone, and not on the code that checks.
pub struct Checked {
    program: Program,
}

// To drop it elsewhere is to call this, and its fields' drops are proved here alone.
impl Drop for Checked {
    fn drop(self) {
        let Checked { program: _program } = self;
    }
}

impl Model for Checked {
    ghost use Rattle.cilk_check_scopes.specs.syntax.Tree as tree;
    ghost use Rattle.cilk_check_scopes.specs.syntax.ProgramCoding.{coded_Program};
    ghost use Rattle.cilk_check_scopes.specs.WellFormed.{WellFormed};

    ghost Value = { tree.Program };

    ghost coded = { coded_Program };

    ghost view = { λ c. c.program };

    ghost invariant = { λ c. WellFormed c.program };
}

impl Checked {
    /// A program that breaks no rule: who makes it has found so.
    pub fn new(program: Program) -> Checked
        requires { WellFormed program }
        ensures { result ≡ program }
    {
        Checked { program }
    }

    /// The program's tree.
    pub fn program(&self) -> &Program
        ensures value { result.now ≡ self.now }
        ensures well_formed { WellFormed self.now }
    {
        &self.program
    }
}
