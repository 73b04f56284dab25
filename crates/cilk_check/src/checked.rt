//! The check of a program.

ghost use Rattle.std.specs.Prelude.{◌≡◌, ◌⊎◌, IsOk, IfOk, IfErr, IfNone, IfSome};
ghost use Rattle.cilk_check.specs.scopes.declared.fault.CheckFault.TheVariants as fault;
ghost use Rattle.cilk_check.specs.scopes.WellFormed.{WellFormed, IsFirstFault};

use crate::first_form::first_form_fault;
use crate::first_name::first_name_fault;
use cilk_check_scopes::{CheckFault, Checked, Memory, Program, earlier_of};
use std::alloc::Global;

// The first fault of a program, of its names and its forms.
fn first_fault(alloc: Global, program: &Program) -> Result<Option<CheckFault>, Memory>
    ensures none { IfOk result (λ found. IfNone found (WellFormed program.now)) }
    ensures first { IfOk result (λ found. IfSome found (IsFirstFault program.now)) }
{
    let named = first_name_fault(alloc, program)?;
    let formed = first_form_fault(alloc, program)?;
    Ok(earlier_of(named, formed))
}

/// Checks a program. The error is the first fault: the one with the least place, and at that place with the least
/// number; or memory has run out.
pub fn check(alloc: Global, program: Program) -> Result<Checked, CheckFault>
    ensures accepted { IsOk result → WellFormed program }
    ensures value { IfOk result (λ checked. checked ≡ program) }
    ensures fault { IfErr result (λ f. (f ≡ fault.Memory) ⊎ IsFirstFault program f) }
{
    match first_fault(alloc, &program) {
        Ok(None) => Ok(Checked::new(program)),
        Ok(Some(fault)) => Err(fault),
        Err(_) => Err(CheckFault::Memory),
    }
}
