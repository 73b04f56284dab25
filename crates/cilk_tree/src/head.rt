//! The canonical lines that open and close bodies.

ghost use Rattle.std.specs.Prelude.{◌∷◌, [], ◌++◌, codes};
ghost use Rattle.std.specs.Fmt.{signed_decimal};
ghost use Rattle.cilk_tree_syntax.specs.Appends.{Appends};
ghost use Rattle.cilk_tree_syntax.specs.Lines.{text_of};
ghost use Rattle.cilk_tree_syntax.specs.StmtLines.{for_line, inlet_line, label_line, label_text, names_text, next_names_text, part_text, test_line};
ghost use Rattle.cilk_tree_syntax.specs.StmtLines.{until_line};

use crate::expr::put_expr;
use crate::line::put_move;
use crate::put::put;
use cilk_tree_syntax::{Expr, Label, Memory, Move, Word};
use itoa::Buffer;

pub(crate) fn put_line(out: &mut String, indent: &str, line: &str) -> Result<(), Memory>
    ensures { Appends result out.old out.new (text_of indent.now (line.now ∷ [])) }
{
    put(out, indent)?;
    put(out, line)?;
    put(out, "\n")
}

// The line that opens the body of an `if`, a `while` or a `switch`, whose word is given.
pub(crate) fn put_test_line(
    out: &mut String,
    indent: &str,
    word: &str,
    test: &Expr,
) -> Result<(), Memory>
    ensures { Appends result out.old out.new (text_of indent.now (test_line word.now test.now ∷ [])) }
{
    put(out, indent)?;
    put(out, word)?;
    put(out, " (")?;
    put_expr(out, test)?;
    put(out, ") {\n")
}

// The line that closes the body of a `do`.
pub(crate) fn put_until_line(out: &mut String, indent: &str, test: &Expr) -> Result<(), Memory>
    ensures { Appends result out.old out.new (text_of indent.now (until_line test.now ∷ [])) }
{
    put(out, indent)?;
    put(out, "} while (")?;
    put_expr(out, test)?;
    put(out, ");\n")
}

// The line that opens the body of a `for`.
pub(crate) fn put_for_line(
    out: &mut String,
    indent: &str,
    first: &Option<Move>,
    test: &Expr,
    advance: &Option<Move>,
) -> Result<(), Memory>
    ensures { Appends result out.old out.new (text_of indent.now (for_line first.now test.now advance.now ∷ [])) }
{
    put(out, indent)?;
    put(out, "for (")?;
    put_part(out, first)?;
    put(out, "; ")?;
    put_expr(out, test)?;
    put(out, "; ")?;
    put_part(out, advance)?;
    put(out, ") {\n")
}

// The first part of a `for`, or the last.
fn put_part(out: &mut String, part: &Option<Move>) -> Result<(), Memory>
    ensures { Appends result out.old out.new (part_text part.now) }
{
    match part {
        None => Ok(()),
        Some(what) => put_move(out, what),
    }
}

// The line of a label.
pub(crate) fn put_label_line(out: &mut String, indent: &str, label: Label) -> Result<(), Memory>
    ensures { Appends result out.old out.new (text_of indent.now (label_line label ∷ [])) }
{
    put(out, indent)?;
    put_label(out, label.value)?;
    put(out, ":\n")
}

fn put_label(out: &mut String, value: Option<i32>) -> Result<(), Memory>
    ensures { Appends result out.old out.new (label_text value) }
{
    match value {
        None => put(out, "default"),
        Some(value) => put_case_text(out, value),
    }
}

fn put_case_text(out: &mut String, value: i32) -> Result<(), Memory>
    ensures { Appends result out.old out.new (codes "case " ++ signed_decimal value) }
{
    let mut buffer = Buffer::new();
    put(out, "case ")?;
    put(out, buffer.format(value))
}

// The line that opens the body of an inlet.
pub(crate) fn put_inlet_line(
    out: &mut String,
    indent: &str,
    name: &Word,
    parameters: &[Word],
) -> Result<(), Memory>
    ensures { Appends result out.old out.new (text_of indent.now (inlet_line name.now parameters.now ∷ [])) }
{
    put(out, indent)?;
    put(out, "inlet void ")?;
    put(out, name.as_str())?;
    put(out, "(")?;
    put_names(out, parameters)?;
    put(out, ") {\n")
}

// `int` parameters between the parentheses.
pub(crate) fn put_names(out: &mut String, names: &[Word]) -> Result<(), Memory>
    ensures { Appends result out.old out.new (names_text names.now) }
{
    match names {
        [] => put(out, "void"),
        [first, others @ ..] => {
            put(out, "int ")?;
            put(out, first.as_str())?;
            put_next_names(out, others)
        }
    }
}

fn put_next_names(out: &mut String, names: &[Word]) -> Result<(), Memory>
    ensures { Appends result out.old out.new (next_names_text names.now) }
{
    for name in names {
        put(out, ", int ")?;
        put(out, name.as_str())?;
    }
    Ok(())
}
