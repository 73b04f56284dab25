//! What prototypes and definitions are compared by, to find what a prototype declares.

ghost use Rattle.std.specs.Prelude.{◌≡◌};
ghost use Rattle.cilk_check_scopes.specs.syntax.Tree as tree;
ghost use Rattle.cilk_check.specs.declared.signature.Signature.{Signature as Signed};
ghost use Rattle.cilk_check.specs.NameFinds.{defines};
ghost use Rattle.cilk_check.specs.Signatures.{has_signature, is_signature};

use crate::meant::is_void;
use cilk_check_scopes::{Parameters, Proc, Prototype};

/// What a prototype and the definition that it declares have in common.
#[derive(Clone, Copy, PartialEq, Eq, PartialOrd, Ord, Drop)]
pub(crate) struct Signature<'a> {
    name: &'a str,
    is_cilk: bool,
    is_void: bool,
    count: usize,
}

impl<'a> Signature<'a> {
    /// Of a definition, unless it is the form of `main` that is told of the command line.
    pub(crate) fn of_definition(definition: &'a Proc) -> Option<Signature<'a>>
        ensures { (s : Signed) → is_signature result s ≡ has_signature s (tree.procedure definition.now) }
    {
        match &definition.parameters {
            Parameters::Ints(names) => Some(Signature {
                name: definition.name.as_str(),
                is_cilk: definition.is_cilk,
                is_void: is_void(Some(definition.returns)),
                count: names.len(),
            }),
            Parameters::CommandLine(_, _) => None,
        }
    }

    pub(crate) fn of_prototype(prototype: &'a Prototype) -> Signature<'a>
        ensures { (item : tree.Item) → has_signature result item ≡ defines prototype.now item }
    {
        Signature {
            name: prototype.name.as_str(),
            is_cilk: prototype.is_cilk,
            is_void: is_void(Some(prototype.returns)),
            count: prototype.count as usize,
        }
    }
}
