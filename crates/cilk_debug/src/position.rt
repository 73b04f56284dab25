//! The line that tells where a program stands.

ghost use Rattle.cilk_debug_console.specs.syntax.Appends.{Appends};
ghost use Rattle.cilk_log_replay.specs.machine.labelled.Bodies.{label};
ghost use Rattle.cilk_debug_console.specs.choices.Words.{outcome_of};
ghost use Rattle.cilk_debug_console.specs.model.Workers.{outcome_text, position_text};

use cilk_log_replay::{Loaded, Memory, Outcome, put_trapped};

/// The line `position 8 of 12: running`: so many of all choices were made, and the program stands so.
pub(crate) fn put_position(
    out: &mut String,
    program: &Loaded,
    outcome: &Outcome,
    made: u64,
    all: u64,
) -> Result<(), Memory>
    ensures { Appends result out.old out.new (position_text (label program.now) (outcome_of outcome.now) made all) }
{
    write!(out, "position {made} of {all}: ")?;
    put_outcome(out, program, outcome)?;
    out.push_str("\n")?;
    Ok(())
}

fn put_outcome(out: &mut String, program: &Loaded, outcome: &Outcome) -> Result<(), Memory>
    ensures { Appends result out.old out.new (outcome_text (label program.now) (outcome_of outcome.now)) }
{
    match outcome {
        Outcome::Running => {
            out.push_str("running")?;
            Ok(())
        }
        Outcome::Finished(value) => {
            write!(out, "finished {value}")?;
            Ok(())
        }
        Outcome::Trapped { kind, path, n } => {
            let line = program.line_of(*n).unwrap_or(0);
            put_trapped(out, *kind, path, *n, line)
        }
    }
}
