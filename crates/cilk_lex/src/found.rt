//! What was found at the front of a text: a token or a blank, and its length.

use cilk_lex_tokens::TokenKind;

/// The token at the front of a text, or none for a blank, and how many bytes it takes.
#[derive(Clone, Copy)]
pub(crate) struct Found {
    pub(crate) kind: Option<TokenKind>,
    pub(crate) end: usize,
}
