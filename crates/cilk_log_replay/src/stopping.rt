//! Whether a move stops at a choice: the breakpoints, and the action that a choice acted.

ghost use Rattle.std.specs.Prelude.{◌≡◌, ℕ, Some};
ghost use Rattle.cilk_machine.specs.model.Path.{Path};
ghost use Rattle.cilk_machine.specs.plans.PartWords.{event_by};
ghost use Rattle.cilk_log_replay.specs.Breaks.{number_of, is_set};
ghost use Rattle.cilk_log_replay.specs.Tracks.{action_of};

use cilk_machine::Did;

// The number of the action that an instance took, or was trapped at.
fn number_of(did: Did) -> Option<u32>
    ensures { (up : ℕ → Path) (now : ℕ → Path) → result ≡ number_of (event_by up now did) }
{
    match did {
        Did::Acted(_, n) | Did::Spawned(_, n) | Did::Returned(_, n) | Did::Trapped(_, _, n) => Some(
            n,
        ),
        Did::Delivered(_, _) | Did::Ended(_) | Did::Moved => None,
    }
}

/// The number of the action that was taken, and 0 where none was.
pub(crate) fn action_of(did: Did) -> u32
    ensures { (up : ℕ → Path) (now : ℕ → Path) → result ≡ action_of (Some (event_by up now did)) }
{
    number_of(did).unwrap_or(0)
}

/// Whether a breakpoint is set at an action.
pub(crate) fn is_set(marks: &[bool], n: u32) -> bool
    ensures { result ≡ is_set marks.now n }
{
    match n.checked_sub(1) {
        None => false,
        Some(k) => match marks.get(k as usize) {
            None => false,
            Some(mark) => *mark,
        },
    }
}
