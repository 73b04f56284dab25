//! How a schedule is told that takes two accesses in the other order.

ghost use Rattle.std.specs.Prelude.{◌≡◌, option_map};
ghost use Rattle.cilk_log_replay.specs.machine.sched.Words.{end_of};
ghost use Rattle.cilk_log_replay.specs.machine.syntax.Appends.{Appends};
ghost use Rattle.cilk_races.specs.Met.{reversal_by};
ghost use Rattle.cilk_races.specs.RacesText.{reversal_end, reversal_line, reversal_size, reversal_text};

use crate::reversal::Reversal;
use cilk_log_replay::{End, Memory, put_trapped};

/// Writes its line.
pub(crate) fn put_reversal(out: &mut String, reversal: &Option<Reversal>) -> Result<(), Memory>
    ensures { Appends result out.old out.new (reversal_line (option_map reversal_by reversal.now)) }
{
    out.push_str("    the other way round: ")?;
    put_found(out, reversal)?;
    out.push_str("\n")?;
    Ok(())
}

fn put_found(out: &mut String, reversal: &Option<Reversal>) -> Result<(), Memory>
    ensures { Appends result out.old out.new (reversal_text (option_map reversal_by reversal.now)) }
{
    match reversal {
        None => {
            out.push_str("not found")?;
            Ok(())
        }
        Some(found) => {
            put_end(out, &found.end)?;
            put_size(out, found)
        }
    }
}

// How many choices of how many workers it has.
fn put_size(out: &mut String, reversal: &Reversal) -> Result<(), Memory>
    ensures { Appends result out.old out.new (reversal_size (reversal_by reversal.now)) }
{
    let choices = reversal.choices;
    let workers = reversal.workers;
    write!(out, ", {choices} choices of {workers} workers")?;
    Ok(())
}

fn put_end(out: &mut String, end: &End) -> Result<(), Memory>
    ensures { Appends result out.old out.new (reversal_end (end_of end.now)) }
{
    match end {
        End::Finished(value) => {
            write!(out, "main returned {value}")?;
            Ok(())
        }
        End::Trapped {
            kind,
            path,
            n,
            line,
        } => put_trapped(out, *kind, path, *n, *line),
        End::Stuck => {
            out.push_str("stuck")?;
            Ok(())
        }
        End::Limit => {
            out.push_str("limit")?;
            Ok(())
        }
    }
}
