//! Tokens, which have a kind and a place and no bytes of their own.

use crate::header::Header;
use crate::keyword::Keyword;
use crate::mark::Mark;

/// What a token is. The text of a name and what a text literal says are read off the bytes at its place.
#[derive(Clone, Copy, Debug, PartialEq, Eq)]
pub enum TokenKind {
    Word(Keyword),
    Name,
    Number(u32),
    Mark(Mark),
    /// A text literal, with its quotes.
    Text,
    /// A whole line that includes a header, from its `#` to the last byte that is no blank.
    Include(Header),
}

/// A token and its place: the bytes of the text from `start` up to, and without, `end`.
#[derive(Clone, Copy, Debug, PartialEq, Eq)]
pub struct Token {
    pub kind: TokenKind,
    pub start: u32,
    pub end: u32,
}
