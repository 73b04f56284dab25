//! How a tally is told.

ghost use Rattle.std.specs.Prelude.{◌≡◌, ◌++◌, IfOk, OnOk, codes, decimal, string_bytes};
ghost use Rattle.cilk_run.specs.model.End.{line_break};
ghost use Rattle.cilk_run.specs.Tallied.{row_text, runs_word, tally_text};
ghost use Rattle.cilk_run.specs.Tallying.{front_text, printed_text, row_by, rows_by};

use crate::row::Row;
use std::alloc::{AllocError, Global};

/// The rows, one after the other. An outcome that printed nothing stands on one line with its numbers; else what was printed stands on lines of
/// its own, and the words of the end behind it.
pub(crate) fn told(alloc: Global, rows: &[Row]) -> Result<Vec<u8>, AllocError>
    ensures { IfOk result (λ text. text.items ≡ tally_text (rows_by rows.now)) }
{
    let mut out = Vec::new(alloc);
    match put_rows(&mut out, rows) {
        Ok(()) => Ok(out),
        Err(error) => {
            drop(out);
            Err(error)
        }
    }
}

fn put_rows(out: &mut Vec<u8>, rows: &[Row]) -> Result<(), AllocError>
    ensures { OnOk result (out.new.items ≡ out.old.items ++ tally_text (rows_by rows.now)) }
{
    for row in rows {
        put_row(out, row)?;
    }
    Ok(())
}

fn put_row(out: &mut Vec<u8>, row: &Row) -> Result<(), AllocError>
    ensures { OnOk result (out.new.items ≡ out.old.items ++ row_text (row_by row.now)) }
{
    put_front(out, row)?;
    put_printed(out, row.outcome.printed.as_slice())?;
    out.extend_from_slice(row.outcome.ended.as_bytes())?;
    out.push(b'\n')?;
    Ok(())
}

fn put_front(out: &mut Vec<u8>, row: &Row) -> Result<(), AllocError>
    ensures { OnOk result (out.new.items ≡ out.old.items ++ front_text (row_by row.now)) }
{
    let front = front_of(*out.allocator(), row.count, row.first)?;
    out.extend_from_slice(front.as_bytes())
}

fn front_of(alloc: Global, count: u32, first: u64) -> Result<String, AllocError>
    ensures { IfOk result (λ front. string_bytes front ≡ decimal count ++ (runs_word count ++ (decimal first ++ codes ":"))) }
{
    if count == 1 {
        return format!(in alloc; "{count} run, first by seed {first}:");
    }
    format!(in alloc; "{count} runs, first by seed {first}:")
}

fn put_printed(out: &mut Vec<u8>, printed: &[u8]) -> Result<(), AllocError>
    ensures { OnOk result (out.new.items ≡ out.old.items ++ printed_text printed.now) }
{
    if printed.is_empty() {
        out.push(b' ')?;
        return Ok(());
    }
    out.push(b'\n')?;
    out.extend_from_slice(printed)?;
    out.extend_from_slice(line_break(printed))
}

fn line_break(printed: &[u8]) -> &'static [u8]
    ensures { result.now ≡ line_break printed.now }
{
    match printed.last() {
        None => b"",
        Some(b'\n') => b"",
        Some(_) => b"\n",
    }
}
