//! The view `output`: what the program printed.

ghost use Rattle.cilk_load.specs.syntax.Appends.{Appends};
ghost use Rattle.cilk_machine_agree.specs.model.Views.{output_text};

use crate::put::put;
use cilk_load::Memory;

/// How many bytes were printed, and these.
pub(crate) fn put_output(out: &mut String, output: &str) -> Result<(), Memory>
    ensures { Appends result out.old out.new (output_text output.now) }
{
    let count = output.len();
    write!(out, "{count} bytes\n")?;
    put(out, output)?;
    put(out, "\n")
}
