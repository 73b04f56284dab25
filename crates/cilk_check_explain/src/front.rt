//! What stands before a token of a text: the sentence that it is of, and the brackets that are open there.

use crate::source::Source;
use crate::words::is_one_of;
use cilk_lex::{Keyword, Mark, TokenKind};

/// A token of a text, by how many stand before it.
#[derive(Clone, Copy)]
pub(crate) struct Front<'a> {
    pub(crate) source: Source<'a>,
    pub(crate) index: usize,
}

impl<'a> Front<'a> {
    /// What the token is. None at the end of the text.
    pub(crate) fn kind(&self) -> Option<TokenKind> {
        self.source.kind(self.index)
    }

    /// How it is spelled.
    pub(crate) fn word(&self) -> &'a str {
        self.source.word(self.index)
    }

    /// The line of the token before it.
    pub(crate) fn line_before(&self) -> usize {
        self.source.line_of_token(self.index.saturating_sub(1))
    }

    /// Which token begins the statement or the declaration that it is of.
    pub(crate) fn begin(&self) -> usize {
        let mut begin = 0;
        for (index, token) in self.source.tokens.iter().enumerate() {
            if index >= self.index {
                return begin;
            }
            if ends_sentence(token.kind) {
                begin = index.saturating_add(1);
            }
        }
        begin
    }

    /// Whether a word stands before the token in the same statement or declaration.
    pub(crate) fn has_before(&self, word: &str) -> bool {
        for index in self.begin()..self.index {
            if self.source.word(index) == word {
                return true;
            }
        }
        false
    }

    /// Whether a spawn stands in the rest of the statement.
    pub(crate) fn spawns_behind(&self) -> bool {
        for index in self.index..self.source.tokens.len() {
            match self.source.kind(index) {
                Some(TokenKind::Word(Keyword::Spawn)) => return true,
                Some(kind) if ends_sentence(kind) => return false,
                _ => {}
            }
        }
        false
    }

    /// Whether it opens the parameters of a function or a procedure.
    pub(crate) fn begins_function(&self) -> bool {
        let begin = self.begin();
        is_one_of(&["int", "void"], self.source.word(begin))
            && self.index == begin.saturating_add(2)
    }

    /// Whether it is the first token of its line.
    pub(crate) fn begins_line(&self) -> bool {
        self.index == 0 || self.line_before() < self.source.line_of_token(self.index)
    }
}

/// Whether nothing before this token belongs to what stands behind it.
pub(crate) fn ends_sentence(kind: TokenKind) -> bool {
    matches!(
        kind,
        TokenKind::Mark(Mark::Semicolon | Mark::OpenBrace | Mark::CloseBrace)
    )
}
