//! The canonical text of text literals.

ghost use Rattle.std.specs.Char.{encode_utf8};
ghost use Rattle.cilk_tree_syntax.specs.Appends.{Appends};
ghost use Rattle.cilk_tree_syntax.specs.MoveText.{escapes, literal_text};

use crate::put::put;
use cilk_tree_syntax::{Literal, Memory};

pub(crate) fn put_literal(out: &mut String, literal: &Literal) -> Result<(), Memory>
    ensures { Appends result out.old out.new (literal_text literal.now) }
{
    put(out, "\"")?;
    put_escapes(out, literal.as_str())?;
    put(out, "\"")
}

fn put_escapes(out: &mut String, text: &str) -> Result<(), Memory>
    ensures { Appends result out.old out.new (escapes text.now) }
{
    for c in text.chars() {
        put_escape(out, c)?;
    }
    Ok(())
}

fn put_escape(out: &mut String, c: char) -> Result<(), Memory>
    ensures { Appends result out.old out.new (escapes (encode_utf8 c)) }
{
    match c {
        '\n' => put(out, "\\n"),
        '\t' => put(out, "\\t"),
        '\\' => put(out, "\\\\"),
        '"' => put(out, "\\\""),
        _ => Ok(out.push(c)?),
    }
}
