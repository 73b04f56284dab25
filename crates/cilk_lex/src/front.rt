//! What a text begins with.

ghost use Rattle.std.specs.Prelude.{◌≡◌, ◌≢◌, ◌<◌, ◌≤◌, ◌+◌, ◌^◌, ◌++◌, codes, List, ℕ, length, take, ◌==◌, ◌||◌, ◌&&◌, IsTrue, MatchOption, slice_index};
ghost use Rattle.std.specs.Char.{is_ascii_digit};
ghost use Rattle.cilk_lex_tokens.specs.declared.mark.Mark.{Mark};
ghost use Rattle.cilk_lex_tokens.specs.Byte.{begins_name, is_space};
ghost use Rattle.cilk_lex_tokens.specs.Lexing.{fresh_behind};
ghost use Rattle.cilk_lex.specs.Sight.{sight, name_sight, number_sight, mark_in, mark_sight, comment_sight};
ghost use Rattle.cilk_lex.specs.Front.{IsSeen, Finds};

use crate::bytes::{begins_name, is_blank, is_space, name_end, number_end};
use crate::found::Found;
use crate::inclusion::first_include;
use crate::literal::first_text;
use crate::spelling::{keyword_of, mark_of, number_of};
use cilk_lex_tokens::{LexFault, Mark, TokenKind};

fn first_name(text: &str) -> Found
    requires some { 0 < length text.now }
    requires letter { IsTrue (begins_name (slice_index text.now 0)) }
    ensures { IsSeen text.now (name_sight text.now) result }
{
    let end = name_end(text.as_bytes());
    let kind = match keyword_of(&text[..end]) {
        Some(word) => TokenKind::Word(word),
        None => TokenKind::Name,
    };
    Found {
        kind: Some(kind),
        end,
    }
}

fn first_number(text: &str, at: u32) -> Result<Found, LexFault>
    requires some { 0 < length text.now }
    requires digit { IsTrue (is_ascii_digit (slice_index text.now 0)) }
    ensures { Finds text.now (number_sight at text.now) result }
{
    let end = number_end(text.as_bytes());
    match number_of(&text[..end]) {
        Some(value) => Ok(Found {
            kind: Some(TokenKind::Number(value)),
            end,
        }),
        None => Err(LexFault::BadNumber(at)),
    }
}

// The mark that the first `end` bytes of the text are.
fn mark_within(text: &str, end: usize) -> Option<Mark>
    ensures { result ≡ mark_in end text.now }
{
    mark_of(text.get(..end)?)
}

fn found_mark(mark: Mark, end: usize) -> Result<Found, LexFault>
    ensures { result ≡ Ok (record { kind = Some (TokenKind.Mark mark); end = end }) }
{
    Ok(Found {
        kind: Some(TokenKind::Mark(mark)),
        end,
    })
}

// The longest mark with which the text begins: no mark has more than three bytes.
fn first_mark(text: &str, at: u32) -> Result<Found, LexFault>
    ensures { Finds text.now (mark_sight at text.now) result }
{
    if let Some(mark) = mark_within(text, 3) {
        return found_mark(mark, 3);
    }
    if let Some(mark) = mark_within(text, 2) {
        return found_mark(mark, 2);
    }
    match mark_within(text, 1) {
        Some(mark) => found_mark(mark, 1),
        None => Err(LexFault::BadByte(at)),
    }
}

// The comment of which this stands behind the two bytes that open it (C 1990, 6.1.9).
fn first_comment(behind: &str, at: u32) -> Result<Found, LexFault>
    ensures { (text : List ℕ) → text ≡ codes "/*" ++ behind.now → Finds text (comment_sight at text) result }
{
    match behind.find("*/") {
        Some(end) => Ok(Found {
            kind: None,
            end: end + 4,
        }),
        None => Err(LexFault::OpenComment(at)),
    }
}

/// What a text begins with, whose first byte has the place `at`. Before it on its line stand nothing but spaces and tabs,
/// if it is `fresh`.
pub(crate) fn first(text: &str, fresh: bool, at: u32) -> Result<Found, LexFault>
    requires some { 0 < length text.now }
    requires fits { at + length text.now < 2 ^ 32 }
    ensures { Finds text.now (sight fresh at text.now) result }
{
    let byte = text.as_bytes()[0];
    if is_blank(byte) {
        return Ok(Found { kind: None, end: 1 });
    }
    if begins_name(byte) {
        return Ok(first_name(text));
    }
    if byte.is_ascii_digit() {
        return first_number(text, at);
    }
    if let Some(behind) = text.strip_prefix('"') {
        return first_text(behind.as_bytes(), at);
    }
    if let Some(line) = text.strip_prefix('#') {
        return first_include(line.as_bytes(), fresh, at);
    }
    match text.strip_prefix("/*") {
        Some(behind) => first_comment(behind, at),
        None => first_mark(text, at),
    }
}

fn fresh_after(fresh: bool, byte: u8) -> bool
    ensures { result ≡ (byte == 10 || (is_space byte && fresh)) }
{
    byte == b'\n' || (is_space(byte) && fresh)
}

/// Whether nothing but spaces and tabs stand on its line before the place behind a front.
pub(crate) fn fresh_behind(fresh: bool, front: &[u8]) -> bool
    ensures { result ≡ fresh_behind fresh front.now }
{
    let mut behind = fresh;
    for byte in front {
        behind = fresh_after(behind, *byte);
    }
    behind
}
