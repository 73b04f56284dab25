//! The first of the faults that were found: at the least place, and there with the least number.

ghost use Rattle.std.specs.Prelude.{◌≡◌, ◌∷◌, []};
ghost use Rattle.cilk_check_scopes.specs.First.{is_before, first_among, fault_if, earlier};

use crate::fault::CheckFault;

fn is_before(fault: CheckFault, other: CheckFault) -> bool
    ensures { result ≡ is_before fault other }
{
    let place = fault.place();
    let others = other.place();
    place < others || (place == others && fault.number() < other.number())
}

/// The first of a fault and of one that was found before.
pub fn first(found: Option<CheckFault>, fault: CheckFault) -> Option<CheckFault>
    ensures { result ≡ first_among found (fault ∷ []) }
{
    match found {
        Some(other) if !is_before(fault, other) => found,
        _ => Some(fault),
    }
}

/// The same, where the fault is there.
pub fn first_if(found: Option<CheckFault>, there: bool, fault: CheckFault) -> Option<CheckFault>
    ensures { result ≡ first_among found (fault_if there fault) }
{
    if there { first(found, fault) } else { found }
}

/// The one of two faults that stands first, where there are any.
pub fn earlier_of(found: Option<CheckFault>, other: Option<CheckFault>) -> Option<CheckFault>
    ensures { result ≡ earlier found other }
{
    match other {
        None => found,
        Some(fault) => first(found, fault),
    }
}
