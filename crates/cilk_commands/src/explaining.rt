//! What is told of a failure, and where an action stands.

ghost use Rattle.std.specs.Prelude.{◌≡◌, ◌≤◌, ◌++◌, ℕ, List, IfOk, IfSome, codes, length, string_bytes, IsCharBoundary};
ghost use Rattle.cilk_commands.specs.FaultPlace.{place_of};
ghost use Rattle.cilk_commands.specs.Status.{status_of};
ghost use Rattle.cilk_commands.specs.Telling.{IsActionTold, IsExplanation, IsTold, WritesFailure, lines_at_action};

use crate::failure::Failure;
use crate::fault::Fault;
use crate::status::Status;
use cilk_check_explain::{
    ReadFault, TEXT_LIMIT, Told, action_place, line_col, place_lines, read, sentence,
};
use cilk_load::Memory;
use std::alloc::{AllocError, Global};
use std::io::Write;

/// Writes the line that tells of a failure with the text of this name and these bytes, and behind it, if it is asked for,
/// what explains it; returns the status. What cannot be written is lost, as is an explanation for which memory runs out.
pub fn tell_of<E: Write>(
    alloc: Global,
    name: &str,
    explain: bool,
    text: &[u8],
    failure: &Failure,
    err: &mut E,
) -> Status
    ensures status { result ≡ status_of failure.now }
    ensures told { (behind : List ℕ) × (IsExplanation explain text.now failure.now behind
        × WritesFailure name.now failure.now behind (E.contents err.old) (E.contents err.new)) }
{
    match explanation(alloc, explain, text, failure) {
        Ok(behind) => failure.report_with(name, behind.as_str(), err),
        Err(_) => failure.report(name, err),
    }
}

fn explanation(
    alloc: Global,
    explain: bool,
    text: &[u8],
    failure: &Failure,
) -> Result<String, Memory>
    ensures { IfOk result (λ s. IsExplanation explain text.now failure.now (string_bytes s)) }
{
    match failure {
        Failure::Fault { fault, .. } if explain => explained(alloc, text, fault),
        _ => Ok(String::new(alloc)),
    }
}

fn explained(alloc: Global, text: &[u8], fault: &Fault) -> Result<String, Memory>
    ensures { IfOk result (λ s. IsTold text.now (place_of fault.now) (string_bytes s)) }
{
    let Ok(text) = str::from_utf8(text) else {
        return said(alloc, "", fault);
    };
    let mut told = place_lines(alloc, text, fault.place())?;
    let words = said(alloc, text, fault)?;
    told.push_str(words.as_str())?;
    Ok(told)
}

fn said(alloc: Global, text: &str, fault: &Fault) -> Result<String, Memory>
    ensures { IfOk result (λ s. (words : List ℕ) × (string_bytes s ≡ words ++ codes ".\n")) }
{
    match fault {
        Fault::Read(ReadFault::Lex(fault)) => sentence(alloc, text, &Told::Lex(*fault)),
        Fault::Read(ReadFault::Unexpected(at)) => sentence(alloc, text, &Told::Unexpected(*at)),
        Fault::Read(ReadFault::TooDeep(at)) => sentence(alloc, text, &Told::TooDeep(*at)),
        Fault::Read(ReadFault::Memory) => Err(Memory::from(AllocError)),
        Fault::Check(fault) => match read(alloc, text) {
            Ok(program) => sentence(alloc, text, &Told::Check(*fault, &program)),
            Err(_) => Err(Memory::from(AllocError)),
        },
    }
}

/// Where the action of this number stands in the text of this name: a line with its place, the line of the text, and a caret
/// under the place. None where it is not found. That it is the action's place is in no clause: cases see it.
pub fn action_told(
    alloc: Global,
    name: &str,
    text: &[u8],
    number: u32,
) -> Result<Option<String>, Memory>
    ensures { IfOk result (λ told. IfSome told (λ s. IsActionTold name.now text.now number (string_bytes s))) }
{
    let Ok(text) = str::from_utf8(text) else {
        return Ok(None);
    };
    if text.len() > TEXT_LIMIT {
        return Ok(None);
    }
    let Some(at) = action_place(alloc, text, number)? else {
        return Ok(None);
    };
    if !text.is_char_boundary(at as usize) {
        return Ok(None);
    }
    let told = place_told(alloc, name, text, at, number)?;
    Ok(Some(told))
}

fn place_told(alloc: Global, name: &str, text: &str, at: u32, number: u32) -> Result<String, Memory>
    requires short { length text.now ≤ TEXT_LIMIT }
    requires begins { IsCharBoundary text.now at }
    ensures { IfOk result (λ s. string_bytes s ≡ lines_at_action name.now text.now at number) }
{
    let (line, column) = line_col(text, at);
    let mut told = format!(in alloc; "{name}:{line}:{column}: action {number}\n")?;
    let lines = place_lines(alloc, text, at)?;
    told.push_str(lines.as_str())?;
    Ok(told)
}
