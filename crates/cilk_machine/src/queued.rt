//! Whether any frame waits in a deque.

ghost use Rattle.std.specs.Prelude.{◌≡◌, length};
ghost use Rattle.cilk_machine.specs.Refused.{any_queued};

use cilk_machine_undo::Hands;

/// Whether some worker has a frame in its deque.
pub(crate) fn is_any_queued(hands: &Hands, workers: u8) -> bool
    requires { workers ≡ length hands.now }
    ensures { result ≡ any_queued hands.now workers }
{
    for empty in 0..workers {
        if hands.len(empty + 1) != 0 {
            return true;
        }
    }
    false
}
