//! A limit of cells that declarations use up, with the fault of the one that passes it.

ghost use Rattle.std.specs.Prelude.{◌≡◌};
ghost use Rattle.cilk_check.specs.Room.{take_from};

use cilk_check_scopes::{CheckFault, first};

/// How many cells may still be declared, or nothing once a declaration has passed them; and the first fault that was
/// found.
#[derive(Clone, Copy)]
pub(crate) struct Room {
    pub(crate) left: Option<u32>,
    pub(crate) found: Option<CheckFault>,
}

impl Room {
    /// What is left behind a declaration of so many cells, whose name stands at a place.
    pub(crate) fn take(self, cells: u32, at: u32) -> Room
        ensures { result ≡ take_from self cells at }
    {
        match self.left {
            None => self,
            Some(left) if cells <= left => Room {
                left: Some(left - cells),
                found: self.found,
            },
            Some(_) => Room {
                left: None,
                found: first(self.found, CheckFault::Limit(at)),
            },
        }
    }
}
