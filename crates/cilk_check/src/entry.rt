//! The visible declarations in the table by which names are checked, with what each of them hides.

use crate::nearest::Nearest;
use cilk_check_scopes::{DeclarationKind, Word};

/// A declaration that is visible, and what it hides.
#[derive(Clone, Copy)]
pub(crate) struct Entry<'a> {
    pub(crate) name: &'a Word,
    pub(crate) kind: DeclarationKind,
    /// The nearest declaration of the name before this one.
    pub(crate) hidden: Option<Nearest>,
}
