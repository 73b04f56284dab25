//! What is said of a declaration: what kind of thing it declares, and how many parameters that has.

use cilk_check_scopes::DeclarationKind;

/// A declaration of a name, and its place.
#[derive(Clone, Copy)]
pub(crate) struct Declared {
    pub(crate) at: u32,
    pub(crate) kind: DeclarationKind,
}

impl Declared {
    /// What it is.
    pub(crate) fn words(self) -> &'static str {
        match self.kind {
            DeclarationKind::Variable => " is an `int` variable",
            DeclarationKind::Array(_) => " is an array",
            DeclarationKind::Lock => " is a lock",
            DeclarationKind::Strings => " is the second parameter of `main`, which nothing may use",
            DeclarationKind::Function(_, _) => " is a C function",
            DeclarationKind::Procedure(_, _) => " is a Cilk procedure",
            DeclarationKind::Inlet(_) => " is an inlet",
        }
    }

    /// How many parameters it has, where it has any or none.
    pub(crate) fn parameters(self) -> Option<usize> {
        match self.kind {
            DeclarationKind::Function(_, count)
            | DeclarationKind::Procedure(_, count)
            | DeclarationKind::Inlet(count) => Some(count),
            _ => None,
        }
    }
}
