//! A log behind which the program never ends, where all was looked at.

ghost use Rattle.std.specs.Prelude.{◌≡◌, ℕ, true, false, map, None, IfOk, IfSome, IfNone};
ghost use Rattle.cilk_machine.specs.sched.Words.{choice_of};
ghost use Rattle.cilk_explore.specs.Marking.{AreMarks};
ghost use Rattle.cilk_explore.specs.Exploring.{program_of, IsThrough, IsOf, NeverEnds, EachCanEnd};

use crate::explorer::Explorer;
use crate::marking::{first_unmarked, marks_of};
use cilk_machine::{Choice, Memory};

/// The first such log, if there is one.
pub(crate) fn endless_log(explorer: &Explorer, whole: bool) -> Result<Option<Vec<Choice>>, Memory>
    requires { whole ≡ true → IsThrough explorer.now }
    ensures never { IfOk result (λ found. IfSome found (λ log. (n : ℕ) → IsOf explorer.now n
        → NeverEnds (program_of explorer.now) n (map choice_of log.items))) }
    ensures none { whole ≡ true → IfOk result (λ found. IfNone found ((n : ℕ) → IsOf explorer.now n → EachCanEnd (program_of explorer.now) n)) }
    ensures only { whole ≡ false → IfOk result (λ found. found ≡ None) }
{
    if !whole {
        return Ok(None);
    }
    match marks_of(explorer.alloc, &explorer.links) {
        Err(memory) => Err(memory),
        Ok(marks) => first_endless(explorer, marks.as_slice()),
    }
}

// The log of the first number that has no mark.
fn first_endless(explorer: &Explorer, marks: &[bool]) -> Result<Option<Vec<Choice>>, Memory>
    requires through { IsThrough explorer.now }
    requires marks { AreMarks explorer.now.links.past marks.now }
    ensures never { IfOk result (λ found. IfSome found (λ log. (n : ℕ) → IsOf explorer.now n
        → NeverEnds (program_of explorer.now) n (map choice_of log.items))) }
    ensures none { IfOk result (λ found. IfNone found ((n : ℕ) → IsOf explorer.now n → EachCanEnd (program_of explorer.now) n)) }
{
    match first_unmarked(marks) {
        None => Ok(None),
        Some(number) => {
            let mut log = Vec::new(explorer.alloc);
            match explorer.store.read(number, &mut log) {
                Err(memory) => Err(memory),
                Ok(()) => Ok(Some(log)),
            }
        }
    }
}
