//! The views of a program that runs, told in portions.

ghost use Rattle.std.specs.Prelude.{◌≡◌, ◌≢◌, Some, None, Ok, Err, IfOk};
ghost use Rattle.cilk_machine_agree.specs.model.Run.{Position};
ghost use Rattle.cilk_machine_agree.specs.model.Views.{shown};
ghost use Rattle.cilk_machine_agree.specs.frame.Asked.{what_of};
ghost use Rattle.cilk_view.specs.Shows.{ShowsAt, Shows};

use crate::deques_telling::tell_deques;
use crate::fault::ViewFault;
use crate::showing::show;
use crate::shown::Shown;
use crate::telling::Telling;
use crate::tree_telling::tell_tree;
use cilk_load::Memory;
use cilk_machine_agree::What;
use std::alloc::Global;

/// The same text as that of `show`, told in portions. Those of `tree` and `deques` take memory by the number of instances ever made, and not by
/// the length of their paths.
pub fn tell(alloc: Global, parts: &Shown, what: &What) -> Result<Telling, ViewFault>
    requires { Shows parts.now }
    ensures text { IfOk result (λ told. (at : Position) → ShowsAt parts.now at → shown parts.now.loaded.now at (what_of what.now) ≡ Some told) }
    ensures fault { result ≡ Err ViewFault.NoInstance → (at : Position) → ShowsAt parts.now at
        → shown parts.now.loaded.now at (what_of what.now) ≡ None }
    ensures none { (at : Position) → ShowsAt parts.now at → shown parts.now.loaded.now at (what_of what.now) ≡ None
        → result ≡ Err ViewFault.NoInstance }
{
    match what {
        What::Tree => begun(tell_tree(alloc, parts)),
        What::Deques => begun(tell_deques(alloc, parts)),
        _ => tell_whole(alloc, parts, what),
    }
}

// The text is made as a whole.
fn tell_whole(alloc: Global, parts: &Shown, what: &What) -> Result<Telling, ViewFault>
    requires { Shows parts.now }
    ensures text { IfOk result (λ told. (at : Position) → ShowsAt parts.now at → shown parts.now.loaded.now at (what_of what.now) ≡ Some told) }
    ensures fault { result ≡ Err ViewFault.NoInstance → (at : Position) → ShowsAt parts.now at
        → shown parts.now.loaded.now at (what_of what.now) ≡ None }
    ensures none { (at : Position) → ShowsAt parts.now at → shown parts.now.loaded.now at (what_of what.now) ≡ None
        → result ≡ Err ViewFault.NoInstance }
{
    match show(alloc, parts, what) {
        Err(fault) => Err(fault),
        Ok(text) => begun(Telling::whole(alloc, text)),
    }
}

fn begun(telling: Result<Telling, Memory>) -> Result<Telling, ViewFault>
    ensures text { IfOk result (λ told. telling ≡ Ok told) }
    ensures fault { result ≢ Err ViewFault.NoInstance }
{
    match telling {
        Ok(telling) => Ok(telling),
        Err(memory) => Err(ViewFault::Memory(memory)),
    }
}
