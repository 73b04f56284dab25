//! The declaration that a use of a name means, and where it lies in the table by which names become slots.

use crate::binding::Binding;

/// The nearest declaration of a name, and how many declarations are visible before it.
#[derive(Clone, Copy)]
pub(crate) struct Nearest {
    pub(crate) binding: Binding,
    pub(crate) at: usize,
}
