//! Lines that include a header (C 1990, 6.8.2).

ghost use Rattle.std.specs.Prelude.{◌≡◌, ℕ, ◌+◌, ◌<◌, ◌^◌, ◌++◌, List, length, codes};
ghost use Rattle.cilk_lex.specs.Sight.{closes, header_at, include_in, include_sight};
ghost use Rattle.cilk_lex_tokens.specs.Spelling.{closing_of};
ghost use Rattle.cilk_lex.specs.Front.{Finds};

use crate::bytes::{ends_line, opens_header, split_blanks, split_header, split_name};
use crate::found::Found;
use crate::spelling::header_of;
use cilk_lex_tokens::{Header, LexFault, TokenKind};

/// What closes the name of a header.
fn closing_of(opening: u8) -> u8
    ensures { result ≡ closing_of opening }
{
    if opening == b'<' { b'>' } else { b'"' }
}

/// Whether what closes the name of a header stands at the front, behind what opens it, and nothing more on its line.
fn closes(opening: u8, text: &[u8]) -> bool
    ensures { result ≡ closes opening text.now }
{
    match text.split_first() {
        Some((first, rest)) => *first == closing_of(opening) && ends_line(rest),
        None => false,
    }
}

/// A header, where the last of its line is its name with what opens and closes it, and the place behind that. The place
/// of the first byte is `start`.
fn quoted_header(text: &[u8], start: usize) -> Option<(Header, usize)>
    requires { start + length text.now < 2 ^ 63 }
    ensures { result ≡ header_at start text.now }
{
    let (opening, rest) = text.split_first()?;
    if !opens_header(*opening) {
        return None;
    }
    let (name, behind) = split_header(rest);
    let header = header_of(name)?;
    closes(*opening, behind).then_some((header, start + 2 + name.len()))
}

/// The header that a line includes, and the place behind the header's name. The text begins behind the line's `#`, which
/// has the place 0.
fn included(text: &[u8]) -> Option<(Header, usize)>
    requires { length text.now < 2 ^ 32 }
    ensures { result ≡ include_in text.now }
{
    let (before, rest) = split_blanks(text);
    let (word, rest) = split_name(rest);
    if word != b"include".as_slice() {
        return None;
    }
    let (between, rest) = split_blanks(rest);
    quoted_header(rest, 1 + before.len() + word.len() + between.len())
}

/// The line that includes a header, of which this stands behind its `#`, which has the place `at`. Before it on its line
/// stand nothing but spaces and tabs, if it is `fresh`.
pub(crate) fn first_include(line: &[u8], fresh: bool, at: u32) -> Result<Found, LexFault>
    requires { length line.now < 2 ^ 32 }
    ensures { (text : List ℕ) → text ≡ codes "#" ++ line.now → Finds text (include_sight fresh at text) result }
{
    if !fresh {
        return Err(LexFault::BadDirective(at));
    }
    match included(line) {
        Some((header, end)) => Ok(Found {
            kind: Some(TokenKind::Include(header)),
            end,
        }),
        None => Err(LexFault::BadDirective(at)),
    }
}
