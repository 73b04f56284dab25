//! Variables and what their cells hold.

ghost use Rattle.std.specs.Prelude.{◌≡◌, ◌++◌, codes, take, drop};
ghost use Rattle.cilk_load.specs.syntax.Appends.{Appends};
ghost use Rattle.cilk_machine_agree.specs.model.Texts.{length_text, values_text};

use crate::put::put;
use cilk_load::Memory;

/// The first cells, as many as there are of so many.
pub(crate) fn first_cells(cells: &[i32], size: usize) -> &[i32]
    ensures { result.now ≡ take size cells.now }
{
    if size < cells.len() {
        let (first, _) = cells.split_at(size);
        first
    } else {
        cells
    }
}

/// Those behind the first ones.
pub(crate) fn other_cells(cells: &[i32], size: usize) -> &[i32]
    ensures { result.now ≡ drop size cells.now }
{
    if size < cells.len() {
        let (_, others) = cells.split_at(size);
        others
    } else {
        &[]
    }
}

/// A variable of this name, an array of this length or 0 for no array, and what its cells hold.
pub(crate) fn put_variable(
    out: &mut String,
    name: &str,
    length: u32,
    cells: &[i32],
) -> Result<(), Memory>
    ensures { Appends result out.old out.new (name.now ++ (length_text length ++ (codes " =" ++ values_text cells.now))) }
{
    put(out, name)?;
    if length != 0 {
        write!(out, "[{length}]")?;
    }
    put(out, " =")?;
    put_values(out, cells)
}

fn put_values(out: &mut String, cells: &[i32]) -> Result<(), Memory>
    ensures { Appends result out.old out.new (values_text cells.now) }
{
    for cell in cells {
        write!(out, " {cell}")?;
    }
    Ok(())
}
