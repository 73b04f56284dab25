//! What is kept of a worker while the choices of a run are made again.

ghost use Rattle.std.specs.Prelude.{◌≡◌};
ghost use Rattle.cilk_races.specs.Seats.{at_worker, drawn, worked};

use crate::cell::next;

/// The work of a worker, and the frames of its deque.
#[derive(Clone, Copy)]
pub(crate) struct Seat {
    /// How many of its steps were work.
    pub share: u64,
    /// How many frames came into its deque.
    pub put: u64,
    /// How many left it again.
    pub gone: u64,
    /// The greatest number that it held at once.
    pub longest: u64,
}

/// A worker that did nothing yet.
pub(crate) const NO_SEAT: Seat = Seat {
    share: 0,
    put: 0,
    gone: 0,
    longest: 0,
};

impl Seat {
    // It did a step that was work, which may have spawned a child.
    fn worked(self, spawned: bool) -> Seat
        ensures { result ≡ worked spawned self }
    {
        let share = next(self.share);
        if !spawned {
            return Seat { share, ..self };
        }
        let put = next(self.put);
        Seat {
            share,
            put,
            longest: self.longest.max(put.saturating_sub(self.gone)),
            ..self
        }
    }

    // A frame left its deque.
    fn drawn(self) -> Seat
        ensures { result ≡ drawn self }
    {
        Seat {
            gone: next(self.gone),
            ..self
        }
    }
}

/// Notes a step of a worker that was work. The workers are numbered from 1.
pub(crate) fn work(seats: &mut Vec<Seat>, worker: u8, spawned: bool)
    ensures { seats.new.items ≡ at_worker worker (worked spawned) seats.old.items }
{
    if let Some(place) = worker.checked_sub(1) {
        let place = usize::from(place);
        if place < seats.len() {
            seats[place] = seats[place].worked(spawned);
        }
    }
}

/// Notes that a frame left the deque of a worker.
pub(crate) fn draw(seats: &mut Vec<Seat>, worker: u8)
    ensures { seats.new.items ≡ at_worker worker drawn seats.old.items }
{
    if let Some(place) = worker.checked_sub(1) {
        let place = usize::from(place);
        if place < seats.len() {
            seats[place] = seats[place].drawn();
        }
    }
}
