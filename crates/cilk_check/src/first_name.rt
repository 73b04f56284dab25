//! The first fault in the names of a program, by the definition of faults.

ghost use Rattle.std.specs.Prelude.{IfOk, IfSome, IfNone};
ghost use Rattle.cilk_check_scopes.specs.declared.fault.CheckFault.{CheckFault};
ghost use Rattle.cilk_check_scopes.specs.Fault.{IsFirst};
ghost use Rattle.cilk_check_scopes.specs.NameFaults.{Faulty};

use crate::names_of_top::first_listed;
use cilk_check_scopes::{CheckFault, Memory, Program};
use std::alloc::Global;

/// The first fault in the names of a program: the one with the least place, and at that place with the least number.
pub fn first_name_fault(alloc: Global, program: &Program) -> Result<Option<CheckFault>, Memory>
    ensures none { IfOk result (λ found. IfNone found ((f : CheckFault) → ¬ Faulty program.now f)) }
    ensures first { IfOk result (λ found. IfSome found (IsFirst (Faulty program.now))) }
{
    let found = first_listed(alloc, program)?;
    Ok(found)
}
