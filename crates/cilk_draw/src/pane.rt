//! Rectangles of a picture.

/// A rectangle, in the units of an SVG: points of a screen. The ordinate grows downwards.
#[derive(Clone, Copy)]
pub(crate) struct Pane {
    pub left: u64,
    pub top: u64,
    pub width: u64,
    pub height: u64,
}

impl Pane {
    pub(crate) fn middle(self) -> u64 {
        self.left.saturating_add(self.width / 2)
    }

    pub(crate) fn bottom(self) -> u64 {
        self.top.saturating_add(self.height)
    }

    /// A point of it, so far from its top.
    pub(crate) fn below(self, distance: u64) -> u64 {
        self.top.saturating_add(distance)
    }

    /// How many letters of the small type it has room for.
    pub(crate) fn letters(self) -> usize {
        usize::try_from(self.width.saturating_sub(8) / 7).unwrap_or(0)
    }
}
