//! From the bytes of a text to a program with its tables, ready to run.

ghost use Rattle.std.specs.Prelude.{◌≡◌, IfOk, IfErr, MatchResult};
ghost use Rattle.cilk_load.specs.syntax.Tree as tree;
ghost use Rattle.cilk_commands.specs.Loading.{IsReady, Unready};

use crate::failure::Failure;
use crate::program::checked_program;
use cilk_load::{LoadFault, Loaded, load};
use std::alloc::Global;

/// The program that the bytes of a text are, ready to run. What is wrong is told in the order of `checked_program`, and then
/// that it has too many actions.
pub fn ready_of(alloc: Global, bytes: &[u8]) -> Result<Loaded, Failure>
    ensures ok { IfOk result (IsReady bytes.now) }
    ensures err { IfErr result (Unready bytes.now) }
    ensures every_program { (p : tree.Program) → IsReady bytes.now p
        → MatchResult result (λ q. q ≡ p) (λ why. why ≡ Failure.Memory) }
{
    match checked_program(alloc, bytes) {
        Ok(checked) => match load(alloc, checked) {
            Ok(loaded) => Ok(loaded),
            Err(LoadFault::TooMany) => Err(Failure::TooMany),
            Err(LoadFault::Memory) => Err(Failure::Memory),
        },
        Err(failure) => Err(failure),
    }
}
