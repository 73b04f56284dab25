//! All tokens of a text from left to right, or the first fault among them, and the limit on its length.

ghost use Rattle.std.specs.Prelude.{◌≡◌, true, ℕ, ◌<◌, ◌≤◌, ◌⊎◌, ◌↔◌, List, length, All, IfOk, IfErr, MatchResult};
ghost use Rattle.cilk_lex_tokens.specs.declared.fault.LexFault.{LexFault};
ghost use Rattle.cilk_lex_tokens.specs.Lexeme.{Piece, pieces_of};
ghost use Rattle.cilk_lex_tokens.specs.Lexing.{Lexes, Faulty, text_limit};
ghost use Rattle.cilk_lex.specs.Reading.{IsWithin, Refuses};

use crate::front::{first, fresh_behind};
use cilk_lex_tokens::{LexFault, Token};
use std::alloc::Global;

/// The most bytes that a text may have.
pub const TEXT_LIMIT: usize = 1_048_576;

/// The tokens of a text of at most 1,048,576 bytes, without the blanks between them. The first
/// fault from the left is the one that is reported (C 1990, 6.1).
pub fn tokens(alloc: Global, text: &str) -> Result<Vec<Token>, LexFault>
    ensures too_long { (result ≡ Err LexFault.TooLong) ↔ (text_limit < length text.now) }
    ensures tokens { IfOk result (λ ts. Lexes true 0 text.now (pieces_of text.now ts.items)) }
    ensures within { IfOk result (λ ts. All (IsWithin text.now) ts.items) }
    ensures refused { IfErr result (Refuses text.now) }

    // Both ways, unless memory runs out.
    ensures every_text { length text.now ≤ text_limit → (ps : List Piece) → Lexes true 0 text.now ps
        → MatchResult result (λ ts. pieces_of text.now ts.items ≡ ps) (λ f. f ≡ LexFault.Memory) }
    ensures every_fault { length text.now ≤ text_limit → (f : LexFault) → Faulty true 0 text.now f
        → MatchResult result (λ _. ⊥) (λ g. (g ≡ f) ⊎ (g ≡ LexFault.Memory)) }
{
    if text.len() > TEXT_LIMIT {
        return Err(LexFault::TooLong);
    }
    let mut found = Vec::new(alloc);
    let mut rest = text;
    let mut start: u32 = 0;
    let mut fresh = true;
    while !rest.is_empty() {
        let front = first(rest, fresh, start)?;
        let end = start + front.end as u32;
        if let Some(kind) = front.kind {
            found.push(Token { kind, start, end })?;
        }
        fresh = fresh_behind(fresh, &rest.as_bytes()[..front.end]);
        rest = &rest[front.end..];
        start = end;
    }
    Ok(found)
}
