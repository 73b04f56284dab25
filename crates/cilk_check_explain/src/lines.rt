//! The line of a place.

ghost use Rattle.std.specs.Prelude.{◌≡◌, IfOk, string_bytes, flat_map, IsCharBoundary};
ghost use Rattle.cilk_check_scopes.specs.lexeme.LineColumn.{is_newline};
ghost use Rattle.std.specs.List.{after_last, before_first};
ghost use Rattle.cilk_check_explain.specs.Lines.{blank_for, place_lines};
ghost use Rattle.cilk_check_explain.specs.Said.{Says};

use crate::say::say;
use cilk_check_scopes::Memory;
use std::alloc::Global;

/// What stands behind the last newline.
pub(crate) fn behind_newline(front: &str) -> &str
    ensures { result.now ≡ after_last is_newline front.now }
{
    match front.rsplit_once('\n') {
        Some((_, behind)) => behind,
        None => front,
    }
}

/// What stands before the first newline.
pub(crate) fn before_newline(rest: &str) -> &str
    ensures { result.now ≡ before_first is_newline rest.now }
{
    match rest.split_once('\n') {
        Some((before, _)) => before,
        None => rest,
    }
}

/// What stands in a text before a place, and what from there on.
pub(crate) fn split(text: &str, at: u32) -> (&str, &str) {
    text.split_at(text.floor_char_boundary(at as usize))
}

fn say_blank(out: &mut String, byte: u8) -> Result<(), Memory>
    ensures { Says result out.old out.new (blank_for byte) }
{
    match byte {
        128..=191 => Ok(()),
        b'\t' => say(out, "\t"),
        _ => say(out, " "),
    }
}

fn say_blanks(out: &mut String, front: &[u8]) -> Result<(), Memory>
    ensures { Says result out.old out.new (flat_map blank_for front.now) }
{
    for byte in front {
        say_blank(out, *byte)?;
    }
    Ok(())
}

/// The line that holds a place of the text, in bytes from its beginning, and a line with a caret under the place.
pub fn place_lines(alloc: Global, text: &str, at: u32) -> Result<String, Memory>
    ensures { IsCharBoundary text.now at → IfOk result (λ s. string_bytes s ≡ place_lines text.now at) }
{
    let (before, behind) = text.split_at(text.floor_char_boundary(at as usize));
    let front = behind_newline(before);
    let mut out = String::new(alloc);
    say(&mut out, front)?;
    say(&mut out, before_newline(behind))?;
    say(&mut out, "\n")?;
    say_blanks(&mut out, front.as_bytes())?;
    say(&mut out, "^\n")?;
    Ok(out)
}
