//! What the program needs of the place where it keeps the logs of an exploration.

ghost use Rattle.std.specs.Prelude.{◌≡◌, ◌≢◌, ℕ, Bool, List, Option, IfSome, OnOk};

use std::io;

/// Where the logs of an exploration are kept, if they are to be kept, each by its number. Each is opened when its text is there.
pub trait LogFolder {
    // Whether logs are to be kept.
    ghost wanted: { Self → Bool };

    // The bytes of the log of a number, where they are known.
    ghost stored: { Self → ℕ → Option (List ℕ) };

    /// Whether logs are to be kept.
    fn is_wanted(&self) -> bool
        ensures { result ≡ wanted self.now };

    /// Keeps a whole text as the log of this number, and leaves the others as they are. Where that fails, a part of it may be kept.
    fn store(&mut self, number: u64, text: &[u8]) -> io::Result<()>
        ensures kept { OnOk result (IfSome (stored self.new number) (λ bytes. bytes ≡ text.now)) }
        ensures others { (k : ℕ) → k ≢ number → stored self.new k ≡ stored self.old k };
}
