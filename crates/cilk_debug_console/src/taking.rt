//! How the bytes of one line are taken from a reader, up to its newline or to the end.

ghost use Rattle.std.specs.Prelude.{◌≡◌, ◌<◌, ◌≤◌, ◌+◌, ◌++◌, ◌∷◌, [], true, false, length, not, ◌==◌, IfOk, IfErr};
ghost use Rattle.std.specs.Io.KnownBytes.{Consumes, IsAtEnd};
ghost use Rattle.std.specs.List.{prefix_len};
ghost use Rattle.cilk_debug_console.specs.Input.{longest};
ghost use Rattle.cilk_debug_console.specs.Taking.{ahead, IsPlain};
ghost use Rattle.cilk_debug_console.specs.Parts.{IsPart, FailsAt, FailsIn};

use crate::chunk::Chunk;
use crate::fault::{InputFault, LineFault};
use std::io::Read;

const LONGEST: usize = 4_096;

/// Takes the bytes before the next newline, and that too, or all that are left. Tells whether there is a newline.
pub(crate) fn take_line<R: Read>(
    chunk: &mut Chunk,
    line: &mut Vec<u8>,
    reader: &mut R,
) -> Result<bool, LineFault>
    requires fresh { line.old.items ≡ [] }
    requires some { 0 < length chunk.old }
    ensures plain { IfOk result (λ _. IsPlain line.new.items) }
    ensures short { IfOk result (λ _. length line.new.items ≤ longest) }
    ensures some { IfOk result (λ found. found ≡ false → 0 < length line.new.items) }
    ensures whole { IfOk result (λ found. found ≡ true
        → Consumes (ahead chunk.old (R.remaining reader.old)) (ahead chunk.new (R.remaining reader.new)) (line.new.items ++ 10 ∷ [])) }
    ensures last { IfOk result (λ found. found ≡ false
        → Consumes (ahead chunk.old (R.remaining reader.old)) (ahead chunk.new (R.remaining reader.new)) line.new.items) }
    ensures end { IfOk result (λ found. found ≡ false → IsAtEnd (ahead chunk.new (R.remaining reader.new))) }
    ensures fails { IfErr result (FailsIn (ahead chunk.old (R.remaining reader.old)) (R.remaining reader.new)) }
{
    loop {
        if take_part(chunk, line)? {
            return Ok(true);
        }
        if chunk.is_at_end(reader)? {
            return Ok(false);
        }
    }
}

// The bytes in hand up to the next newline.
fn take_part(chunk: &mut Chunk, line: &mut Vec<u8>) -> Result<bool, LineFault>
    requires { length line.old.items ≤ longest }
    ensures ok { IfOk result (IsPart chunk.old chunk.new line.old.items line.new.items) }
    ensures err { IfErr result (FailsAt chunk.old line.old.items) }
{
    let bytes = chunk.unread();
    let count = line_end(bytes);
    if LONGEST - line.len() < count {
        return Err(LineFault::Read(InputFault::LineTooLong));
    }
    if line.extend_from_slice(&bytes[..count]).is_err() {
        return Err(LineFault::Memory);
    }
    let found = count < bytes.len();
    chunk.skip(if found { count + 1 } else { count });
    Ok(found)
}

// How many bytes stand before the first newline.
fn line_end(bytes: &[u8]) -> usize
    ensures { result ≡ prefix_len (λ b. not (b == 10)) bytes.now }
{
    bytes.iter().take_while(|byte| **byte != b'\n').count()
}
