//! The visible declarations in the table by which names become slots, with what each of them hides.

use crate::binding::Binding;
use crate::nearest::Nearest;
use cilk_tree_syntax::Word;

/// A declaration that is visible, and what it hides.
#[derive(Clone, Copy)]
pub(crate) struct Entry<'a> {
    pub(crate) name: &'a Word,
    pub(crate) binding: Binding,
    /// The nearest declaration of the name before this one.
    pub(crate) hidden: Option<Nearest>,
}
