//! The numbers by which an editor names the frames of stacks.

ghost use Rattle.std.specs.Prelude.{◌≡◌, ◌<◌, ◌^◌};
ghost use Rattle.cilk_dap_messages.specs.Naming.{number_of};

// A frame is named by its worker, and by its number among the frames of that one, which is less than this.
const EACH: u64 = 16_777_216;

/// Which frame of which worker. Workers count from 1, and frames from 0, from the innermost on.
#[derive(Clone, Copy)]
pub struct FrameName {
    pub worker: u64,
    pub index: u64,
}

impl FrameName {
    /// The frame of a number that an editor tells.
    pub fn of(number: u64) -> FrameName
        ensures named { number_of result ≡ number }
        ensures within { result.index < 16777216 }
    {
        FrameName {
            worker: number / EACH,
            index: number % EACH,
        }
    }

    /// The number that an editor is told.
    pub(crate) fn number(self) -> u64
        ensures { self.worker < 2 ^ 32 → self.index < 16777216 → result ≡ number_of self }
    {
        self.worker.wrapping_mul(EACH).wrapping_add(self.index)
    }
}
