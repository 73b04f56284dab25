//! What the program needs of the system: texts by their names, the commands of a session, a store for a log, and a folder for logs.

ghost use Rattle.std.specs.Prelude.{◌≡◌, ℕ, IfOk, IfSome, List, Option, is_some};

use crate::{LogFolder, LogStore};
use std::alloc::{AllocError, Global};
use std::io::Read;

/// Where the texts are that names stand for.
pub trait Texts {
    type Reader: Read + Drop;

    type Commands: Read + Drop;

    type Store: LogStore + Drop;

    type Folder: LogFolder + Drop;

    // The bytes of the text of a name, where they are known.
    ghost held: { Self → List ℕ → Option (List ℕ) };

    // The bytes of the commands that are entered, where they are known.
    ghost entered: { Self → Option (List ℕ) };

    /// The text of this name, if it can be read.
    fn open(&self, name: &str) -> Option<Self::Reader>
        ensures { IfSome result (λ reader. Self.Reader.remaining reader ≡ held self.now name.now) };

    /// The commands of a session.
    fn commands(&self) -> Self::Commands
        ensures { Self.Commands.remaining result ≡ entered self.now };

    /// The store for the log of a run: `program` is the name of the program's text, and `name` that of the log. Where no log is wanted there is a
    /// store too, which says so, so that a run with a log and one without are one function. Whether both names lead to one file is looked at here,
    /// and told by `is_apart`. Nothing is created before `store` is called.
    fn log_store(
        &self,
        alloc: Global,
        program: &str,
        name: Option<&str>,
    ) -> Result<Self::Store, AllocError>
        ensures { IfOk result (λ store. Self.Store.wanted store ≡ is_some name.entry) };

    /// The folder of this name, for the logs of an exploration of the program whose text has that name. Where no logs are wanted there is one too, which
    /// says so. No log takes the place of the program: that one is then not written. Nothing is created before `store` is called.
    fn log_folder(
        &self,
        alloc: Global,
        program: &str,
        name: Option<&str>,
    ) -> Result<Self::Folder, AllocError>
        ensures { IfOk result (λ folder. Self.Folder.wanted folder ≡ is_some name.entry) };
}
