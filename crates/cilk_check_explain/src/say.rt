//! The smallest parts of what is told.

ghost use Rattle.std.specs.Prelude.{flat_map, decimal};
ghost use Rattle.cilk_check_explain.specs.Said.{Says};

use cilk_check_scopes::Memory;
use itoa::Buffer;

pub(crate) fn say(out: &mut String, text: &str) -> Result<(), Memory>
    ensures { Says result out.old out.new text.now }
{
    out.push_str(text)?;
    Ok(())
}

pub(crate) fn say_number(out: &mut String, number: usize) -> Result<(), Memory>
    ensures { Says result out.old out.new (decimal number) }
{
    let mut buffer = Buffer::new();
    say(out, buffer.format(number))
}
