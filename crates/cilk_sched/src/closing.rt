//! The closing text of a run.

ghost use Rattle.std.specs.Prelude.{◌≡◌, IfOk, string_bytes};
ghost use Rattle.cilk_frame.specs.model.End.{line_break, end_text, ending};
ghost use Rattle.cilk_sched.specs.Words.{end_of};

use crate::end::End;
use crate::naming::put_trapped;
use cilk_frame::Memory;
use std::alloc::Global;

/// The closing text of a run: what the program printed, on lines of its own, and a line that tells
/// how it stands after so many choices.
pub fn ending(alloc: Global, output: &[u8], end: &End, choices: u64) -> Result<Vec<u8>, Memory>
    ensures { IfOk result (λ text. text.items ≡ ending output.now (end_of end.now) choices) }
{
    let line = end_line(alloc, end, choices)?;
    let mut text = Vec::from_slice(alloc, output)?;
    text.extend_from_slice(line_break(output))?;
    text.extend_from_slice(line.as_bytes())?;
    text.push(b'\n')?;
    Ok(text)
}

fn line_break(output: &[u8]) -> &'static [u8]
    ensures { result.now ≡ line_break output.now }
{
    match output.last() {
        None => b"",
        Some(b'\n') => b"",
        Some(_) => b"\n",
    }
}

fn end_line(alloc: Global, end: &End, choices: u64) -> Result<String, Memory>
    ensures { IfOk result (λ line. string_bytes line ≡ end_text (end_of end.now) choices) }
{
    match end {
        End::Finished(value) => Ok(format!(in alloc; "main returned {value}")?),
        End::Trapped {
            kind,
            path,
            n,
            line,
        } => {
            let mut text = String::new(alloc);
            put_trapped(&mut text, *kind, path, *n, *line)?;
            Ok(text)
        }
        End::Stuck => Ok(format!(in alloc; "stuck after {choices} choices")?),
        End::Limit => Ok(format!(in alloc; "limit after {choices} choices")?),
    }
}
