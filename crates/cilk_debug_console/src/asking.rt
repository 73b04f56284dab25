//! What a line asks.

ghost use Rattle.std.specs.Prelude.{◌≡◌, ◌==◌, option_map, IfOk};
ghost use Rattle.std.specs.List.{slice_split};
ghost use Rattle.cilk_log.specs.Reading.{number_in};
ghost use Rattle.cilk_debug_console.specs.Asking.{word_in, view_in, greatest, number_behind, numbered_in, ordinal_in, ordinals_in, path_in, frame_in};
ghost use Rattle.cilk_debug_console.specs.Asking.{command_in};
ghost use Rattle.cilk_log.specs.choices.frame.Asked.{what_of};
ghost use Rattle.cilk_debug_console.specs.Words.{asked_of};

use crate::command::Command;
use cilk_log::{Memory, Path, What, number_in};
use std::alloc::Global;

// A number has at most nine digits.
const GREATEST: u64 = 999_999_999;

/// The command that a line is, without its newline.
pub fn command_of(alloc: Global, line: &[u8]) -> Result<Command, Memory>
    ensures { IfOk result (λ command. asked_of command ≡ command_in line.now) }
{
    if let Some(command) = word_in(line) {
        return Ok(command);
    }
    if let Some(what) = view_in(line) {
        return Ok(Command::View(what));
    }
    if let Some(command) = numbered_in(line) {
        return Ok(command);
    }
    match frame_in(alloc, line)? {
        None => Ok(Command::Unknown),
        Some(what) => Ok(Command::View(what)),
    }
}

fn word_in(line: &[u8]) -> Option<Command>
    ensures { option_map asked_of result ≡ word_in line.now }
{
    match line {
        b"" => Some(Command::Nothing),
        b"step" => Some(Command::Step),
        b"back" => Some(Command::Back),
        b"next" => Some(Command::Next),
        b"prev" => Some(Command::Previous),
        b"quit" => Some(Command::Quit),
        _ => None,
    }
}

fn view_in(line: &[u8]) -> Option<What>
    ensures { option_map what_of result ≡ view_in line.now }
{
    if line == b"tree".as_slice() {
        Some(What::Tree)
    } else if line == b"globals".as_slice() {
        Some(What::Globals)
    } else if line == b"deques".as_slice() {
        Some(What::Deques)
    } else if line == b"output".as_slice() {
        Some(What::Output)
    } else if line == b"where".as_slice() {
        Some(What::Where)
    } else if line == b"list".as_slice() {
        Some(What::List)
    } else {
        None
    }
}

// A word and a number.
fn numbered_in(line: &[u8]) -> Option<Command>
    ensures { option_map asked_of result ≡ numbered_in line.now }
{
    if let Some(position) = number_behind(b"go ", line) {
        return Some(Command::Go(u64::from(position)));
    }
    if let Some(action) = number_behind(b"break ", line) {
        return Some(Command::Break(action));
    }
    number_behind(b"clear ", line).map(Command::Clear)
}

fn number_behind(word: &[u8], line: &[u8]) -> Option<u32>
    ensures { result ≡ number_behind word.now line.now }
{
    match line.strip_prefix(word) {
        None => None,
        Some(text) => short_number(text),
    }
}

fn short_number(text: &[u8]) -> Option<u32>
    ensures { result ≡ number_in greatest text.now }
{
    match number_in(text, GREATEST) {
        None => None,
        Some(number) => u32::try_from(number).ok(),
    }
}

fn frame_in(alloc: Global, line: &[u8]) -> Result<Option<What>, Memory>
    ensures { IfOk result (λ what. option_map what_of what ≡ frame_in line.now) }
{
    match line.strip_prefix(b"frame ") {
        None => Ok(None),
        Some(text) => match path_in(alloc, text)? {
            None => Ok(None),
            Some(path) => Ok(Some(What::Frame(path))),
        },
    }
}

fn path_in(alloc: Global, text: &[u8]) -> Result<Option<Path>, Memory>
    ensures { IfOk result (λ path. path ≡ path_in text.now) }
{
    match text.strip_prefix(b"/") {
        None => Ok(None),
        Some([]) => Ok(Some(Path::root(alloc))),
        Some(behind) => ordinals_in(alloc, behind),
    }
}

// Ordinals with slashes between them.
fn ordinals_in(alloc: Global, text: &[u8]) -> Result<Option<Path>, Memory>
    ensures { IfOk result (λ path. path ≡ ordinals_in (slice_split (λ b. b == 47) text.now)) }
{
    let mut numbers = Vec::new(alloc);
    for ordinal in text.split(|byte| *byte == b'/') {
        match ordinal_in(ordinal) {
            None => return Ok(None),
            Some(number) => numbers.push(number)?,
        }
    }
    Ok(Some(Path::new(numbers)))
}

// The number of a child counts from 1.
fn ordinal_in(text: &[u8]) -> Option<u32>
    ensures { result ≡ ordinal_in text.now }
{
    match short_number(text) {
        None | Some(0) => None,
        Some(number) => Some(number),
    }
}
