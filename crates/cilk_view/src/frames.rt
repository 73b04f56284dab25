//! The view `frame`: the activations of an instance, with their variables.

ghost use Rattle.std.specs.Prelude.{◌≡◌, ◌++◌, ◌<◌, codes, decimal, option_copied};
ghost use Rattle.cilk_load.specs.syntax.Appends.{Appends};
ghost use Rattle.cilk_machine_agree.specs.frame.Frames.{depth, activation_at};
ghost use Rattle.cilk_view.specs.WhereLines.{line_number};
ghost use Rattle.cilk_view.specs.Frames.{body_with, vars_text, body_text, activation_by, frame_by};

use crate::cells::{first_cells, other_cells, put_variable};
use crate::put::put;
use crate::where_lines::line_number;
use cilk_load::{Body, Loaded, Memory, Var};
use cilk_machine_agree::Frame;

/// A part for each activation, from the procedure's own up.
pub(crate) fn put_frame(out: &mut String, loaded: &Loaded, frame: &Frame) -> Result<(), Memory>
    ensures { Appends result out.old out.new (frame_by loaded.now frame.now) }
{
    for i in 0..frame.depth() {
        put_activation(out, loaded, frame, i)?;
    }
    Ok(())
}

fn put_activation(out: &mut String, loaded: &Loaded, frame: &Frame, i: u32) -> Result<(), Memory>
    requires { i < depth frame.now }
    ensures { Appends result out.old out.new (activation_by loaded.now (activation_at frame.now i)) }
{
    let n = frame.node(i);
    match body_with(loaded, n) {
        None => Ok(()),
        Some(body) => {
            let line = line_number(loaded, n);
            put(out, body.name.as_str())?;
            write!(out, " line {line}\n")?;
            put_vars(out, body.vars.as_slice(), frame.cells(i))
        }
    }
}

// The body that action n stands in.
fn body_with(loaded: &Loaded, n: u32) -> Option<&Body>
    ensures { option_copied result ≡ body_with loaded.now n }
{
    match loaded.statement(n) {
        None => None,
        Some(node) => loaded.body(node.body),
    }
}

// A line for each variable, the first of which has the first cells.
fn put_vars(out: &mut String, vars: &[Var], cells: &[i32]) -> Result<(), Memory>
    ensures { Appends result out.old out.new (vars_text vars.now cells.now) }
{
    let mut cells = cells;
    for var in vars {
        let size = var.length.max(1) as usize;
        put(out, "    ")?;
        put_variable(out, var.name.as_str(), var.length, first_cells(cells, size))?;
        put(out, "\n")?;
        cells = other_cells(cells, size);
    }
    Ok(())
}
