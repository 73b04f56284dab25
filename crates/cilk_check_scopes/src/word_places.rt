//! Where the words `spawn`, `sync` and `SYNCHED` may stand.

ghost use Rattle.std.specs.Prelude.{◌≡◌};
ghost use Rattle.cilk_check_scopes.specs.First.{first_among};
ghost use Rattle.cilk_check_scopes.specs.WordFaults.{word_faults};

use crate::fault::CheckFault;
use crate::order::first;
use crate::owner::Owner;

/// The first of a fault that was found before and of that of one of these words, in a body.
pub fn at_word(owner: Owner, at: u32, found: Option<CheckFault>) -> Option<CheckFault>
    ensures { result ≡ first_among found (word_faults owner at) }
{
    match owner {
        Owner::Function(_) => first(found, CheckFault::NotInProcedure(at)),
        Owner::Procedure(_) => found,
        Owner::Inlet => first(found, CheckFault::InInlet(at)),
    }
}
