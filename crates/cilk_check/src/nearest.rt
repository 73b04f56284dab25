//! The declaration that a use of a name means, and where it lies in the table by which names are checked.

use cilk_check_scopes::DeclarationKind;

/// The nearest declaration of a name: what it is declared as, and how many declarations are visible before it.
#[derive(Clone, Copy)]
pub(crate) struct Nearest {
    pub(crate) kind: DeclarationKind,
    pub(crate) at: usize,
}
