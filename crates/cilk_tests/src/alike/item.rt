//! What stands at the top level.

use super::Same;
use cilk_tree_syntax::{Global, Header, Item, ItemNode, Parameters, Proc, Program, Prototype};

impl Same for Header {
    ghost use Rattle.cilk_tree_syntax.specs.lexeme.declared.header.Header.{Header};

    ghost Meaning = { Header };

    ghost meaning = { λ header. header };

    fn same(&self, other: &Header) -> bool {
        self == other
    }
}

impl Same for Parameters {
    ghost use Rattle.cilk_tree_syntax.specs.Tree as tree;
    ghost use Rattle.cilk_tree_syntax.specs.Bare.{bare_parameters};
    ghost use Rattle.cilk_tree_syntax.specs.ProgramView.{parameters_of};

    ghost Meaning = { tree.Parameters };

    ghost meaning = { λ x. bare_parameters (parameters_of x) };

    fn same(&self, other: &Parameters) -> bool {
        match (self, other) {
            (Parameters::Ints(a), Parameters::Ints(b)) => a.same(b),
            (Parameters::CommandLine(a, c), Parameters::CommandLine(b, d)) => a.same(b)
                && c.same(d),
            _ => false,
        }
    }
}

impl Same for Proc {
    ghost use Rattle.cilk_tree_syntax.specs.Tree as tree;
    ghost use Rattle.cilk_tree_syntax.specs.Bare.{bare_proc};

    ghost Meaning = { tree.Proc };

    ghost meaning = { bare_proc };

    fn same(&self, other: &Proc) -> bool {
        self.is_cilk == other.is_cilk
            && self.returns == other.returns
            && self.name.same(&other.name)
            && self.parameters.same(&other.parameters)
            && self.body.same(&other.body)
    }
}

impl Same for Prototype {
    ghost use Rattle.cilk_tree_syntax.specs.Tree as tree;
    ghost use Rattle.cilk_tree_syntax.specs.Bare.{bare_prototype};

    ghost Meaning = { tree.Prototype };

    ghost meaning = { bare_prototype };

    fn same(&self, other: &Prototype) -> bool {
        self.is_cilk == other.is_cilk
            && self.returns == other.returns
            && self.name.same(&other.name)
            && self.count == other.count
    }
}

impl Same for Global {
    ghost use Rattle.cilk_tree_syntax.specs.Tree as tree;
    ghost use Rattle.cilk_tree_syntax.specs.Bare.{bare_global};

    ghost Meaning = { tree.Global };

    ghost meaning = { bare_global };

    fn same(&self, other: &Global) -> bool {
        self.name.same(&other.name) && self.shape == other.shape
    }
}

impl Same for Item {
    ghost use Rattle.cilk_tree_syntax.specs.Tree as tree;
    ghost use Rattle.cilk_tree_syntax.specs.Bare.{bare_item};

    ghost Meaning = { tree.Item };

    ghost meaning = { bare_item };

    fn same(&self, other: &Item) -> bool {
        match (&self.node, &other.node) {
            (ItemNode::Global(a), ItemNode::Global(b)) => a.same(b),
            (ItemNode::Lock(a), ItemNode::Lock(b)) => a.same(b),
            (ItemNode::Prototype(a), ItemNode::Prototype(b)) => a.same(b),
            (ItemNode::Procedure(a), ItemNode::Procedure(b)) => a.same(b),
            _ => false,
        }
    }
}

impl Same for Program {
    ghost use Rattle.cilk_tree_syntax.specs.Tree as tree;
    ghost use Rattle.cilk_tree_syntax.specs.Bare.{bare_program};

    ghost Meaning = { tree.Program };

    ghost meaning = { bare_program };

    #[tactic(auto, using(crate::proofs::Images::themselves))]
    fn same(&self, other: &Program) -> bool {
        self.headers.same(&other.headers) && self.items.same(&other.items)
    }
}
