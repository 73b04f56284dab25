//! What the program needs of the place where it keeps the log of a run.

ghost use Rattle.std.specs.Prelude.{◌≡◌, OnOk, ℕ, Bool, List, Option, None, true, false};
ghost use Rattle.std.specs.Io.KnownBytes.{Appends};

use std::io;

/// Where the log of a run is kept, if it is to be kept. It is opened when the text of the log is there, so that a program
/// which cannot be run leaves the store as it was.
pub trait LogStore {
    // Whether a log is to be kept.
    ghost wanted: { Self → Bool };

    // The bytes that were kept, where they are known.
    ghost stored: { Self → Option (List ℕ) };

    /// Whether a log is to be kept. Of a store that keeps none no byte is known.
    fn is_wanted(&self) -> bool
        ensures value { result ≡ wanted self.now }
        ensures none { result ≡ false → stored self.now ≡ None };

    /// Whether the log would go elsewhere than to the file that the program's text came from; so it is, too, where no log is kept.
    fn is_apart(&self) -> bool
        ensures { wanted self.now ≡ false → result ≡ true };

    /// Keeps the whole text. Where that fails, a part of it may be kept.
    fn store(&mut self, text: &[u8]) -> io::Result<()>
        ensures { OnOk result (Appends (stored self.old) (stored self.new) text.now) };
}
