//! What is written, as far as the writer takes it.

ghost use Rattle.std.specs.Prelude.{◌≡◌, IfErr, OnErr, OnOk, flat_map};
ghost use Rattle.std.specs.Io.KnownBytes.{Appends};
ghost use Rattle.cilk_load.specs.Front.{AppendsFront};

use crate::failure::Failure;
use std::io;
use std::io::{ErrorKind, Write};

/// Writes a whole answer, and flushes it.
pub fn write_answer<W: Write>(out: &mut W, answer: &[u8]) -> Result<(), Failure>
    ensures ok { OnOk result (Appends (W.contents out.old) (W.contents out.new) answer.now) }
    ensures err { IfErr result (λ why. why ≡ Failure.CannotWrite) }
    ensures front { OnErr result (AppendsFront (W.contents out.old) (W.contents out.new) answer.now) }
{
    match write_whole(out, answer) {
        Ok(()) => out.flush().map_err(|_| Failure::CannotWrite),
        Err(_) => Err(Failure::CannotWrite),
    }
}

/// Writes these texts one after the other.
pub fn write_parts<W: Write>(out: &mut W, parts: &[&str]) -> io::Result<()>
    ensures ok { OnOk result
        (Appends (W.contents out.old) (W.contents out.new) (flat_map (λ part. part.now) parts.now)) }
    ensures front { OnErr result
        (AppendsFront (W.contents out.old) (W.contents out.new) (flat_map (λ part. part.now) parts.now)) }
{
    for part in parts {
        write_whole(out, part.as_bytes())?;
    }
    Ok(())
}

/// Writes these bytes, as `write_all` does, which promises nothing of what was written where it fails.
pub fn write_whole<W: Write>(out: &mut W, bytes: &[u8]) -> io::Result<()>
    ensures ok { OnOk result (Appends (W.contents out.old) (W.contents out.new) bytes.now) }
    ensures front { OnErr result (AppendsFront (W.contents out.old) (W.contents out.new) bytes.now) }
{
    let mut rest = bytes;
    // So that it ends, however often it is interrupted.
    for _ in 0..u64::MAX {
        if rest.is_empty() {
            return Ok(());
        }
        match out.write(rest) {
            Ok(0) => return Err(io::Error::from(ErrorKind::WriteZero)),
            Ok(count) => rest = &rest[count..],
            Err(error) if error.kind() == ErrorKind::Interrupted => {}
            Err(error) => return Err(error),
        }
    }
    Err(io::Error::from(ErrorKind::TimedOut))
}
