//! The lines of an input.

ghost use Rattle.std.specs.Prelude.{◌≡◌, [], IfOk, IfErr};
ghost use Rattle.std.specs.Str.Lines.{strip_carriage_return};
ghost use Rattle.cilk_debug_console.specs.Taking.{TakesNext, Fails};
ghost use Rattle.cilk_debug_console.specs.Parts.{LineAsks};

use crate::asking::command_of;
use crate::chunk::Chunk;
use crate::fault::{InputFault, LineFault};
use crate::next::NextLine;
use crate::taking::take_line;
use std::alloc::Global;
use std::io::Read;
use std::marker::Model;

const MOST_LINES: u32 = 1_000_000;

/// The lines of an input, as far as they were not taken yet. The input is read in chunks of 8 KiB.
#[derive(Drop)]
pub struct Lines {
    alloc: Global,
    chunk: Chunk,
    line: Vec<u8>,
    taken: u32,
}

impl Model for Lines {
    ghost use Rattle.cilk_debug_console.specs.Taking.{Reading};

    ghost Value = { Reading };

    ghost view = { λ l. record { unread = l.chunk; taken = l.taken } };
}

impl Lines {
    /// All lines of an input of which nothing was read.
    pub fn new(alloc: Global) -> Result<Lines, LineFault>
        ensures start { IfOk result (λ lines. lines ≡ record { unread = []; taken = 0 }) }
        ensures memory { IfErr result (λ why. why ≡ LineFault.Memory) }
    {
        let chunk = Chunk::new(alloc)?;
        Ok(Lines {
            alloc,
            chunk,
            line: Vec::new(alloc),
            taken: 0,
        })
    }

    /// What the next line asks. No byte behind it is read that does not come in the same chunk.
    pub fn next<R: Read>(&mut self, reader: &mut R) -> Result<NextLine, LineFault>
        ensures ok { IfOk result (TakesNext self.old self.new (R.remaining reader.old) (R.remaining reader.new)) }
        ensures err { IfErr result (Fails self.old (R.remaining reader.old) (R.remaining reader.new)) }
    {
        if self.chunk.is_at_end(reader)? {
            return Ok(NextLine::End);
        }
        if MOST_LINES <= self.taken {
            return Err(LineFault::Read(InputFault::TooManyLines));
        }
        self.taken += 1;
        self.line.clear();
        let has_newline = take_line(&mut self.chunk, &mut self.line, reader)?;
        next_of(self.alloc, self.line.as_slice(), has_newline)
    }
}

// What a line asks, by whether a newline follows it; only before one is a byte 13 at the line's end dropped.
fn next_of(alloc: Global, line: &[u8], has_newline: bool) -> Result<NextLine, LineFault>
    ensures ok { IfOk result (LineAsks line.now has_newline) }
    ensures memory { IfErr result (λ why. why ≡ LineFault.Memory) }
{
    if has_newline {
        match command_of(alloc, without_return(line)) {
            Ok(command) => Ok(NextLine::Line(command)),
            Err(_) => Err(LineFault::Memory),
        }
    } else {
        match command_of(alloc, line) {
            Ok(command) => Ok(NextLine::Last(command)),
            Err(_) => Err(LineFault::Memory),
        }
    }
}

// One byte 13 at the end is dropped.
fn without_return(line: &[u8]) -> &[u8]
    ensures { result.now ≡ strip_carriage_return line.now }
{
    match line {
        [front @ .., b'\r'] => front,
        _ => line,
    }
}
