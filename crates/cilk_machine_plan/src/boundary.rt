//! Where a procedure is between two of its threads.

ghost use Rattle.std.specs.Prelude.{◌≡◌};
ghost use Rattle.cilk_machine_plan.specs.Made.{leaves, between_threads};

use cilk_eval::Action;
use cilk_machine_agree::Frame;

/// Whether the procedure of a frame that comes to an action is between two of its threads, where an inlet may run (Cilk 5.4 manual, `inlet`).
pub fn is_between_threads(frame: &Frame, action: &Action) -> bool
    ensures { result ≡ between_threads frame.now action.now }
{
    frame.depth() == 1 && (frame.at_boundary() || matches!(action, Action::Sync) || leaves(action))
}

/// Whether an action leaves its body.
pub fn leaves(action: &Action) -> bool
    ensures { result ≡ leaves action.now }
{
    matches!(
        action,
        Action::Return(_) | Action::ReturnNothing | Action::Close
    )
}
