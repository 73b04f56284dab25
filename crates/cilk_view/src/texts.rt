//! The whole texts of the views `frame`, `globals`, `deques`, `output`, `where` and `list`; that of `tree` is made where its lines are.

ghost use Rattle.std.specs.Prelude.{◌≡◌, IfOk, OnOk, string_bytes};
ghost use Rattle.cilk_machine_agree.specs.model.Run.{Position};
ghost use Rattle.cilk_load.specs.labelled.Bodies.{label};
ghost use Rattle.cilk_machine_agree.specs.model.Globals.{globals_text};
ghost use Rattle.cilk_machine_agree.specs.model.Workers.{deques_text, where_text};
ghost use Rattle.cilk_machine_agree.specs.model.Views.{output_text};
ghost use Rattle.cilk_machine_agree.specs.model.Listing.{list_text};
ghost use Rattle.cilk_view.specs.Shows.{ShowsAt, Shows};
ghost use Rattle.cilk_view.specs.Frames.{frame_by};

use crate::deques::put_deques;
use crate::frames::put_frame;
use crate::globals::put_globals;
use crate::listing::put_list;
use crate::output::put_output;
use crate::shown::Shown;
use crate::where_lines::put_where_lines;
use cilk_load::{Loaded, Memory};
use cilk_machine_agree::Frame;
use std::alloc::{AllocError, Global};
use std::str::from_utf8;

pub(crate) fn frame_text(alloc: Global, loaded: &Loaded, frame: &Frame) -> Result<String, Memory>
    ensures { IfOk result (λ text. string_bytes text ≡ frame_by loaded.now frame.now) }
{
    let mut out = String::new(alloc);
    put_frame(&mut out, loaded, frame)?;
    Ok(out)
}

pub(crate) fn globals_text(alloc: Global, shown: &Shown) -> Result<String, Memory>
    requires { Shows shown.now }
    ensures { IfOk result (λ text. (at : Position) → ShowsAt shown.now at
        → string_bytes text ≡ globals_text shown.now.loaded.now.items at.standing.state.globals at.standing.state.locks) }
{
    let mut out = String::new(alloc);
    let items = shown.loaded.program().items.as_slice();
    put_globals(&mut out, shown.tree, items, shown.globals, shown.locks)?;
    Ok(out)
}

pub(crate) fn deques_text(alloc: Global, shown: &Shown) -> Result<String, Memory>
    requires { Shows shown.now }
    ensures { IfOk result (λ text. (at : Position) → ShowsAt shown.now at → string_bytes text ≡ deques_text 1 at.standing.scheduler.places) }
{
    let mut out = String::new(alloc);
    put_deques(&mut out, shown.tree, shown.hands, shown.workers)?;
    Ok(out)
}

/// What is printed comes from the texts of the program and from numbers, so that it is a text; where
/// it is none, there is no view of it.
pub(crate) fn output_text(alloc: Global, output: &[u8]) -> Result<String, Memory>
    ensures { IfOk result (λ text. string_bytes text ≡ output_text output.now) }
{
    match from_utf8(output) {
        Err(_) => Err(Memory::from(AllocError)),
        Ok(output) => {
            let mut out = String::new(alloc);
            put_output(&mut out, output)?;
            Ok(out)
        }
    }
}

/// The text of `where`, without its line on the position.
pub(crate) fn where_text(alloc: Global, shown: &Shown) -> Result<String, Memory>
    requires { Shows shown.now }
    ensures { IfOk result (λ text. (at : Position) → ShowsAt shown.now at
        → string_bytes text ≡ where_text (label shown.now.loaded.now) at.standing.state.instances 1 at.standing.scheduler.places) }
{
    let mut out = String::new(alloc);
    put_where_lines(
        &mut out,
        shown.loaded,
        shown.tree,
        shown.hands,
        shown.workers,
    )?;
    Ok(out)
}

pub(crate) fn list_text(alloc: Global, loaded: &Loaded) -> Result<String, Memory>
    ensures { IfOk result (λ text. string_bytes text ≡ list_text loaded.now) }
{
    let mut out = String::new(alloc);
    put_list(alloc, &mut out, loaded)?;
    Ok(out)
}
