//! The smallest parts of the printer.

ghost use Rattle.std.specs.Prelude.{decimal};
ghost use Rattle.cilk_tree_syntax.specs.Appends.{Appends};

use cilk_tree_syntax::Memory;
use itoa::Buffer;

pub(crate) fn put(out: &mut String, text: &str) -> Result<(), Memory>
    ensures { Appends result out.old out.new text.now }
{
    out.push_str(text)?;
    Ok(())
}

pub(crate) fn put_number(out: &mut String, n: u32) -> Result<(), Memory>
    ensures { Appends result out.old out.new (decimal n) }
{
    let mut buffer = Buffer::new();
    put(out, buffer.format(n))
}
