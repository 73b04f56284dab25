//! Texts in which more stands inside one another than may: P3.

use crate::say::say;
use crate::source::Source;
use cilk_check_scopes::Memory;
use cilk_lex::{Mark, TokenKind};

/// P3.
pub(crate) fn say_too_deep(out: &mut String, source: &Source<'_>, at: u32) -> Result<(), Memory> {
    let Some(token) = source.tokens.get(source.index_of(at)) else {
        return say(out, "More stands inside one another here than may");
    };
    match token.kind {
        TokenKind::Mark(Mark::OpenParenthesis) => say(
            out,
            "More than 200 parentheses stand inside one another here",
        ),
        TokenKind::Mark(Mark::Semicolon | Mark::OpenBrace | Mark::Increment | Mark::Decrement)
        | TokenKind::Word(_)
        | TokenKind::Name => say(
            out,
            "More than 200 statements stand inside one another here",
        ),
        _ => say(
            out,
            "An expression has more than 200 operators and subscripts here",
        ),
    }
}
