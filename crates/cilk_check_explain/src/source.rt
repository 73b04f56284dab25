//! A text with its tokens at hand: words, lines and scopes by their places.

ghost use Rattle.std.specs.Prelude.{◌≤◌, length};

use cilk_lex::{Mark, Token, TokenKind, line_col};

/// A text and its tokens.
#[derive(Clone, Copy)]
pub(crate) struct Source<'a> {
    pub(crate) text: &'a str,
    pub(crate) tokens: &'a [Token],
}

impl<'a> Source<'a> {
    /// How many tokens begin before a place.
    pub(crate) fn index_of(&self, at: u32) -> usize
        ensures { result ≤ length self.now.tokens.now }
    {
        self.tokens.partition_point(|token| token.start < at)
    }

    /// How a token is spelled.
    pub(crate) fn cut(&self, token: Token) -> &'a str {
        match self.text.get(token.start as usize..token.end as usize) {
            Some(word) => word,
            None => "",
        }
    }

    /// How the token with this index is spelled.
    pub(crate) fn word(&self, index: usize) -> &'a str {
        match self.tokens.get(index) {
            Some(token) => self.cut(*token),
            None => "",
        }
    }

    /// What the token with this index is.
    pub(crate) fn kind(&self, index: usize) -> Option<TokenKind> {
        match self.tokens.get(index) {
            Some(token) => Some(token.kind),
            None => None,
        }
    }

    /// The place of the token with this index, or the end of the text.
    pub(crate) fn place_at(&self, index: usize) -> u32 {
        match self.tokens.get(index) {
            Some(token) => token.start,
            None => u32::try_from(self.text.len()).unwrap_or(u32::MAX),
        }
    }

    /// The line of that.
    pub(crate) fn line_of_token(&self, index: usize) -> usize {
        self.line(self.place_at(index))
    }

    /// The last parenthesis or bracket that is open at a token.
    pub(crate) fn opener(&self, front: usize) -> Option<usize> {
        let mut closed = 0usize;
        for index in (0..front).rev() {
            match self.kind(index) {
                Some(TokenKind::Mark(Mark::CloseParenthesis | Mark::CloseBracket)) => {
                    closed = closed.saturating_add(1);
                }
                Some(TokenKind::Mark(Mark::OpenParenthesis | Mark::OpenBracket)) if closed == 0 => {
                    return Some(index);
                }
                Some(TokenKind::Mark(Mark::OpenParenthesis | Mark::OpenBracket)) => closed -= 1,
                Some(TokenKind::Mark(Mark::OpenBrace | Mark::CloseBrace)) => return None,
                _ => {}
            }
        }
        None
    }

    /// The first brace that is open at a token.
    pub(crate) fn open_brace(&self, front: usize) -> Option<usize> {
        let mut open = 0usize;
        let mut found = None;
        for (index, token) in self.tokens.iter().enumerate() {
            if index >= front {
                return found;
            }
            match token.kind {
                TokenKind::Mark(Mark::OpenBrace) => {
                    if open == 0 {
                        found = Some(index);
                    }
                    open = open.saturating_add(1);
                }
                TokenKind::Mark(Mark::CloseBrace) => {
                    open = open.saturating_sub(1);
                    if open == 0 {
                        found = None;
                    }
                }
                _ => {}
            }
        }
        found
    }

    /// The line of a place.
    pub(crate) fn line(&self, at: u32) -> usize {
        if self.text.len() >= u32::MAX as usize {
            return 1;
        }
        line_col(self.text, at).0 as usize
    }

    /// Whether the scope of what is declared at the first place goes on at the second, where so many braces of that scope
    /// are open at the first (C 1990, 6.1.2.1).
    pub(crate) fn is_open(&self, from: u32, to: u32, braces: usize) -> bool {
        let mut open = braces;
        for token in &self.tokens[self.index_of(from)..] {
            if token.start >= to {
                return true;
            }
            match token.kind {
                TokenKind::Mark(Mark::OpenBrace) => open = open.saturating_add(1),
                TokenKind::Mark(Mark::CloseBrace) if open <= 1 => return false,
                TokenKind::Mark(Mark::CloseBrace) => open -= 1,
                _ => {}
            }
        }
        true
    }
}
