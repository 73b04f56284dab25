//! Where the columns, the lanes and the rows of a picture lie.

use crate::column::Column;
use crate::pane::Pane;
use crate::picture::Picture;
use cilk_log_replay::Memory;
use std::alloc::Global;

/// Where the first column begins; what is left of it holds the names of lanes and rows.
pub(crate) const MARGIN: u64 = 150;

/// Where the first lane begins.
pub(crate) const HEAD: u64 = 104;

// A lane, and the gap below it.
const LANE: u64 = 96;

// A row of a variable or a lock, and the gap below it.
const ROW: u64 = 28;

// What is right of the last column, where the last values have room.
const TAIL: u64 = 60;

// The width of a letter of the small type.
const LETTER: u64 = 7;

/// The places of the columns of a picture, and how many lanes and rows there are.
#[derive(Drop)]
pub(crate) struct Grid {
    // Where each column begins, and where the last one ends.
    edges: Vec<u64>,
    lanes: u64,
    rows: u64,
}

impl Grid {
    pub(crate) fn new(alloc: Global, picture: &Picture) -> Result<Grid, Memory> {
        let mut edges = Vec::new(alloc);
        let wide = width_of_boxes(picture.columns.as_slice());
        let mut edge = MARGIN;
        edges.push(edge)?;
        for column in picture.columns.as_slice() {
            edge = edge.saturating_add(width_of(column, wide));
            edges.push(edge)?;
        }
        Ok(Grid {
            edges,
            lanes: picture.hands.len() as u64,
            rows: picture.globals.len() as u64,
        })
    }

    /// Where a column begins, or the picture ends.
    pub(crate) fn edge(&self, column: usize) -> u64 {
        match self.edges.get(column) {
            None => self.right(),
            Some(edge) => *edge,
        }
    }

    /// Where lanes and rows end.
    pub(crate) fn right(&self) -> u64 {
        match self.edges.last() {
            None => MARGIN,
            Some(edge) => edge.saturating_add(TAIL),
        }
    }

    /// The middle of a column.
    pub(crate) fn middle(&self, column: usize) -> u64 {
        let left = self.edge(column);
        let right = self.edge(column.saturating_add(1));
        left.saturating_add(right.saturating_sub(left) / 2)
    }

    /// Where a ribbon changes behind so many columns: in the middle of the last of them.
    pub(crate) fn bend(&self, behind: usize) -> u64 {
        match behind.checked_sub(1) {
            None => MARGIN,
            Some(column) => self.middle(column),
        }
    }

    /// The lane of a worker, counted from 0.
    pub(crate) fn lane(&self, worker: u64) -> Pane {
        Pane {
            left: MARGIN,
            top: HEAD.saturating_add(worker.saturating_mul(LANE)),
            width: self.right().saturating_sub(MARGIN),
            height: LANE - 10,
        }
    }

    /// The box of a column in that lane.
    pub(crate) fn pane(&self, column: usize, worker: u64) -> Pane {
        let left = self.edge(column);
        let right = self.edge(column.saturating_add(1));
        Pane {
            left: left.saturating_add(3),
            top: self.lane(worker).below(6),
            width: right.saturating_sub(left).saturating_sub(6),
            height: 38,
        }
    }

    /// The bar in that lane from one bend to another.
    pub(crate) fn bar(&self, from: u64, to: u64, worker: u64) -> Pane {
        Pane {
            left: from,
            top: self.lane(worker).below(52),
            width: to.saturating_sub(from),
            height: 24,
        }
    }

    /// The part of a row, counted from 0, from one bend to another.
    pub(crate) fn strip(&self, from: u64, to: u64, row: u64) -> Pane {
        let top = HEAD.saturating_add(self.lanes.saturating_mul(LANE));
        Pane {
            left: from,
            top: top.saturating_add(row.saturating_mul(ROW)),
            width: to.saturating_sub(from),
            height: ROW - 6,
        }
    }

    /// Where all lanes and rows end.
    pub(crate) fn bottom(&self) -> u64 {
        self.strip(MARGIN, MARGIN, self.rows).top
    }
}

// Wide enough for the longest caption.
fn width_of_boxes(columns: &[Column]) -> u64 {
    let mut longest = 8_u64;
    for column in columns {
        if column.count == 1 {
            longest = longest.max(column.caption.len() as u64);
        }
    }
    longest.min(18).saturating_mul(LETTER).saturating_add(18)
}

// Of several choices wide enough for the number of the last one, and so for how many they are.
fn width_of(column: &Column, wide: u64) -> u64 {
    if column.count == 1 {
        return wide;
    }
    match column.last() {
        0..=999 => 36,
        1000..=99999 => 50,
        _ => 71,
    }
}
