//! The views of a program that runs.

ghost use Rattle.std.specs.Prelude.{◌≡◌, ◌≢◌, Some, None, Ok, Err, IfOk, string_bytes};
ghost use Rattle.cilk_machine_agree.specs.model.Run.{Position};
ghost use Rattle.cilk_machine_agree.specs.model.Views.{shown};
ghost use Rattle.cilk_machine_agree.specs.model.What as what;
ghost use Rattle.cilk_machine_agree.specs.frame.Asked.{what_of};
ghost use Rattle.cilk_view.specs.Shows.{ShowsAt, Shows};

use crate::fault::ViewFault;
use crate::finding::{find_live, frame_live};
use crate::shown::Shown;
use crate::texts::{deques_text, frame_text, globals_text, list_text, output_text, where_text};
use crate::tree::tree_text;
use cilk_load::Memory;
use cilk_machine_agree::{Path, What};
use std::alloc::Global;

/// The text of a view, without its line on the position. There is none of the frame of what does not
/// live, and then, and only then, is `NoInstance` answered. A session has `tree` and `deques` in portions, by `tell`.
pub fn show(alloc: Global, parts: &Shown, what: &What) -> Result<String, ViewFault>
    requires { Shows parts.now }
    ensures text { IfOk result (λ text. (at : Position) → ShowsAt parts.now at
        → shown parts.now.loaded.now at (what_of what.now) ≡ Some (string_bytes text)) }
    ensures fault { result ≡ Err ViewFault.NoInstance → (at : Position) → ShowsAt parts.now at
        → shown parts.now.loaded.now at (what_of what.now) ≡ None }
    ensures none { (at : Position) → ShowsAt parts.now at → shown parts.now.loaded.now at (what_of what.now) ≡ None
        → result ≡ Err ViewFault.NoInstance }
{
    match what {
        What::Tree => told(tree_text(alloc, parts)),
        What::Frame(path) => show_frame(alloc, parts, path),
        What::Globals => told(globals_text(alloc, parts)),
        What::Deques => told(deques_text(alloc, parts)),
        What::Output => told(output_text(alloc, parts.output)),
        What::Where => told(where_text(alloc, parts)),
        What::List => told(list_text(alloc, parts.loaded)),
    }
}

fn show_frame(alloc: Global, parts: &Shown, path: &Path) -> Result<String, ViewFault>
    requires { Shows parts.now }
    ensures text { IfOk result (λ text. (at : Position) → ShowsAt parts.now at
        → shown parts.now.loaded.now at (what.frame path.now) ≡ Some (string_bytes text)) }
    ensures fault { result ≡ Err ViewFault.NoInstance → (at : Position) → ShowsAt parts.now at
        → shown parts.now.loaded.now at (what.frame path.now) ≡ None }
    ensures none { (at : Position) → ShowsAt parts.now at → shown parts.now.loaded.now at (what.frame path.now) ≡ None
        → result ≡ Err ViewFault.NoInstance }
{
    // Brings its clauses into the proof.
    let _program = parts.loaded.program();
    match find_live(parts.tree, path.as_slice()) {
        None => Err(ViewFault::NoInstance),
        Some(id) => match frame_live(parts.tree, parts.hands, parts.workers, id) {
            None => Err(ViewFault::NoInstance),
            Some(frame) => told(frame_text(alloc, parts.loaded, frame)),
        },
    }
}

fn told(text: Result<String, Memory>) -> Result<String, ViewFault>
    ensures text { IfOk result (λ text_now. text ≡ Ok text_now) }
    ensures fault { result ≢ Err ViewFault.NoInstance }
{
    match text {
        Ok(text) => Ok(text),
        Err(memory) => Err(ViewFault::Memory(memory)),
    }
}
