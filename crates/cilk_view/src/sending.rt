//! What is written to who asked.

ghost use Rattle.std.specs.Prelude.{OnErr, OnOk};
ghost use Rattle.std.specs.Io.KnownBytes.{Appends};
ghost use Rattle.cilk_load.specs.Front.{AppendsFront};

use crate::fault::WriteFault;
use crate::portion::Portion;
use crate::telling::Telling;
use std::io::Write;

/// Writes a whole answer, and flushes it. Where there is none, nothing is flushed.
pub fn send<W: Write>(writer: &mut W, answer: &[u8]) -> Result<(), WriteFault>
    ensures ok { OnOk result (Appends (W.contents writer.old) (W.contents writer.new) answer.now) }
    ensures front { OnErr result (AppendsFront (W.contents writer.old) (W.contents writer.new) answer.now) }
{
    if answer.is_empty() {
        return Ok(());
    }
    write_once(writer, answer)?;
    match writer.flush() {
        Err(_) => Err(WriteFault),
        Ok(()) => Ok(()),
    }
}

/// Writes a text in portions, and flushes it. It takes no memory: that of the text and of the portion was taken before. Where there is none, nothing
/// is flushed.
pub fn send_told<W: Write>(
    writer: &mut W,
    telling: &mut Telling,
    portion: &mut Portion,
) -> Result<(), WriteFault>
    ensures ok { OnOk result (Appends (W.contents writer.old) (W.contents writer.new) telling.old) }
    ensures front { OnErr result (AppendsFront (W.contents writer.old) (W.contents writer.new) telling.old) }
{
    telling.put_next(portion);
    if portion.as_slice().is_empty() {
        return Ok(());
    }
    while !portion.as_slice().is_empty() {
        match write_once(writer, portion.as_slice()) {
            Err(fault) => return Err(fault),
            Ok(()) => telling.put_next(portion),
        }
    }
    if writer.flush().is_err() {
        return Err(WriteFault);
    }
    Ok(())
}

// What `write_all` does, but for a writer that was interrupted: that is not tried again, nor is a reader that was. So each call of `write` takes a
// byte, or is the last.
fn write_once<W: Write>(writer: &mut W, answer: &[u8]) -> Result<(), WriteFault>
    ensures ok { OnOk result (Appends (W.contents writer.old) (W.contents writer.new) answer.now) }
    ensures front { OnErr result (AppendsFront (W.contents writer.old) (W.contents writer.new) answer.now) }
{
    let mut rest = answer;
    while !rest.is_empty() {
        match writer.write(rest) {
            Ok(0) | Err(_) => return Err(WriteFault),
            Ok(count) => rest = &rest[count..],
        }
    }
    Ok(())
}
