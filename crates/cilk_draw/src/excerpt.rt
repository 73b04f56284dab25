//! Which part of a schedule is drawn.

ghost use Rattle.std.specs.Prelude.{◌≡◌, ◌≤◌, ◌-◌};

/// The choices of a schedule that are drawn: from the one of a number, counted from 1, up to that of another. What goes beyond the schedule is not there.
#[derive(Clone, Copy)]
pub struct Excerpt {
    pub from: u64,
    pub to: u64,
}

impl Excerpt {
    /// How many choices come before it, of so many.
    pub fn begin(self, all: usize) -> usize
        ensures within { result ≤ all }
        ensures value { self.from - 1 ≤ all → result ≡ self.from - 1 }
        ensures beyond { all ≤ self.from - 1 → result ≡ all }
    {
        usize::try_from(self.from.saturating_sub(1))
            .unwrap_or(all)
            .min(all)
    }

    /// Behind how many choices it ends.
    pub fn end(self, all: usize) -> usize
        ensures within { result ≤ all }
        ensures value { self.to ≤ all → result ≡ self.to }
        ensures beyond { all ≤ self.to → result ≡ all }
    {
        usize::try_from(self.to).unwrap_or(all).min(all)
    }
}
