//! The three calls of a lock, and their names.

ghost use Rattle.std.specs.Prelude.{◌≡◌};
ghost use Rattle.cilk_tree_syntax.specs.LockWord.{lock_word};

/// What is done to a lock (Cilk 5.4 manual, locks).
#[derive(Clone, Copy, PartialEq, Eq)]
pub enum LockAction {
    Init,
    Lock,
    Unlock,
}

impl LockAction {
    /// The name of the call.
    pub fn word(self) -> &'static str
        ensures { result.now ≡ lock_word self }
    {
        match self {
            LockAction::Init => "Cilk_lock_init",
            LockAction::Lock => "Cilk_lock",
            LockAction::Unlock => "Cilk_unlock",
        }
    }
}
