//! Text literals (C 1990, 6.1.4).

ghost use Rattle.std.specs.Prelude.{◌≡◌, ℕ, ◌+◌, ◌<◌, ◌^◌, ◌++◌, List, false, length, codes};
ghost use Rattle.cilk_lex.specs.Sight.{quote_from, fault_from, text_sight};
ghost use Rattle.cilk_lex.specs.Front.{Finds};

use crate::bytes::{is_escape, is_printed};
use crate::found::Found;
use cilk_lex_tokens::{LexFault, TokenKind};

/// Where the quote stands that closes a text literal, on its line, in the text behind the one that opens it. A backslash
/// takes the byte behind it along.
fn closing_quote(text: &[u8]) -> Option<usize>
    ensures { result ≡ quote_from false 0 text.now }
{
    let mut escaped = false;
    let mut place = 0;
    for byte in text {
        if *byte == b'\n' {
            return None;
        }
        if escaped {
            escaped = false;
        } else {
            if *byte == b'"' {
                return Some(place);
            }
            escaped = *byte == b'\\';
        }
        place += 1;
    }
    None
}

/// The first fault between the quotes of a text literal, whose first byte there has the place `at`.
fn fault_within(body: &[u8], at: u32) -> Option<LexFault>
    requires { at + length body.now < 2 ^ 32 }
    ensures { result ≡ fault_from false at body.now }
{
    let mut escaped = false;
    let mut place = at;
    for byte in body {
        if escaped {
            if !is_escape(*byte) {
                return Some(LexFault::BadEscape(place - 1));
            }
            escaped = false;
        } else if *byte == b'\\' {
            escaped = true;
        } else if !is_printed(*byte) {
            return Some(LexFault::BadByte(place));
        }
        place += 1;
    }
    None
}

/// The text literal of which this stands behind its quote, which has the place `at`.
pub(crate) fn first_text(behind: &[u8], at: u32) -> Result<Found, LexFault>
    requires { at + 1 + length behind.now < 2 ^ 32 }
    ensures { (text : List ℕ) → text ≡ codes "\"" ++ behind.now → Finds text (text_sight at text) result }
{
    let Some(end) = closing_quote(behind) else {
        return Err(LexFault::OpenText(at));
    };
    match fault_within(&behind[..end], at + 1) {
        Some(fault) => Err(fault),
        None => Ok(Found {
            kind: Some(TokenKind::Text),
            end: end + 2,
        }),
    }
}
