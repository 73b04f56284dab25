//! The text of a program as an editor has it.

/// The text of a program as an editor has it.
#[derive(Clone, Copy)]
pub struct SourceText<'a> {
    /// The name of its file.
    pub name: &'a str,
    /// Its bytes.
    pub bytes: &'a [u8],
}
