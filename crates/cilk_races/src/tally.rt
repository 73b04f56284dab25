//! What is kept of a run while its choices are made again: each instance ever made, and the greatest numbers so far.

ghost use Rattle.std.specs.Prelude.{◌≡◌, max, length, IfOk, OnOk};
ghost use Rattle.cilk_races.specs.Tallies.{at_place, child_cell, counted, first, highest, noted, own_after, raised, settled, stepped};

use crate::cell::{Cell, cell_at, next, put};
use crate::edge::Edge;
use crate::motion::{Motion, motion_of};
use cilk_log_replay::{Did, Machine, Memory};
use std::alloc::Global;
use std::marker::Model;

/// The instances, and the greatest numbers so far.
#[derive(Drop)]
pub struct Tally {
    cells: Vec<Cell>,
    /// The length of the longest chain of steps.
    span: u64,
    /// The greatest number of bodies one above another at a step.
    bodies: u64,
    /// The greatest number of instances one above another.
    depth: u64,
    /// How many instances have ended.
    ended: u64,
    /// The greatest number of instances that lived at once.
    live: u64,
}

impl Model for Tally {
    ghost use Rattle.cilk_races.specs.Tallies as words;

    ghost Value = { words.Tally };

    ghost view = { λ t. record { cells = t.cells.items; span = t.span; bodies = t.bodies; depth = t.depth; ended = t.ended; live = t.live } };
}

impl Tally {
    /// Before any choice: the root alone.
    pub fn new(alloc: Global) -> Result<Tally, Memory>
        ensures { IfOk result (λ t. t ≡ first) }
    {
        let mut cells = Vec::new(alloc);
        cells.push(Cell::root())?;
        Ok(Tally {
            cells,
            span: 0,
            bodies: 0,
            depth: 1,
            ended: 0,
            live: 1,
        })
    }

    /// Notes what the machine's last choice did.
    pub fn note(&mut self, machine: &Machine, did: &Did) -> Result<(), Memory>
        ensures { OnOk result (self.new ≡ noted machine.now.program machine.now.machine.nodes did.now self.old) }
    {
        match motion_of(machine, self.cells.as_slice(), did) {
            None => Ok(()),
            Some(motion) => match self.step(&motion) {
                Err(memory) => Err(memory),
                Ok(()) => {
                    self.count(did);
                    Ok(())
                }
            },
        }
    }

    // Notes a step.
    fn step(&mut self, motion: &Motion) -> Result<(), Memory>
        ensures { OnOk result (self.new ≡ stepped motion.now self.old) }
    {
        let cell = cell_at(self.cells.as_slice(), motion.place);
        let rank = next(highest(self.cells.as_slice(), motion));
        settle(&mut self.cells, motion, rank);
        self.span = self.span.max(rank);
        self.bodies = self.bodies.max(cell.depth.saturating_add(motion.above));
        if motion.bears {
            let child = child_cell(motion.place, cell.depth, rank);
            self.depth = self.depth.max(child.depth);
            self.cells.push(child)?;
        }
        Ok(())
    }

    // Counts those that live behind it.
    fn count(&mut self, did: &Did)
        ensures { self.new ≡ counted did.now self.old }
    {
        if matches!(did, Did::Returned(_, _) | Did::Ended(_)) {
            self.ended = next(self.ended);
        }
        let made = self.cells.len() as u64;
        self.live = self.live.max(made.saturating_sub(self.ended));
    }

    /// What is kept of each instance, by its place.
    pub fn cells(&self) -> &[Cell]
        ensures { result.now ≡ self.now.cells }
    {
        self.cells.as_slice()
    }

    /// How many instances were made.
    pub(crate) fn instances(&self) -> u64
        ensures { result ≡ length self.now.cells }
    {
        self.cells.len() as u64
    }

    pub(crate) fn span(&self) -> u64
        ensures { result ≡ self.now.span }
    {
        self.span
    }

    pub(crate) fn live(&self) -> u64
        ensures { result ≡ self.now.live }
    {
        self.live
    }

    pub(crate) fn depth(&self) -> u64
        ensures { result ≡ self.now.depth }
    {
        self.depth
    }

    /// The greatest number of bodies one above another.
    pub(crate) fn bodies(&self) -> u64
        ensures { result ≡ max self.now.depth self.now.bodies }
    {
        self.depth.max(self.bodies)
    }
}

// The greatest rank of what has to come before a step.
fn highest(cells: &[Cell], motion: &Motion) -> u64
    ensures { result ≡ highest cells.now motion.now }
{
    match motion.taking {
        None => {
            let cell = cell_at(cells, motion.place);
            if motion.joins {
                cell.thread.max(cell.joined)
            } else {
                cell.thread
            }
        }
        Some(child) => {
            let cell = cell_at(cells, child);
            cell.thread.max(cell.taken)
        }
    }
}

// What is kept of a child at its birth.
fn child_cell(parent: usize, depth: u64, rank: u64) -> Cell
    ensures { result ≡ child_cell parent depth rank }
{
    Cell {
        parent: Some(parent),
        depth: next(depth),
        above: 0,
        taking: None,
        thread: rank,
        joined: 0,
        taken: 0,
    }
}

// A step of this rank: of its instance, of the child whose value it takes, and of the parent, which waits for it.
fn settle(cells: &mut Vec<Cell>, motion: &Motion, rank: u64)
    ensures { cells.new.items ≡ settled motion.now rank cells.old.items }
{
    let cell = cell_at(cells.as_slice(), motion.place);
    put(cells, motion.place, own_after(motion, rank, cell));
    raise(cells, motion.taking, Edge::Taken, rank);
    raise(cells, cell.parent, Edge::Joined, rank);
}

fn own_after(motion: &Motion, rank: u64, cell: Cell) -> Cell
    ensures { result ≡ own_after motion.now rank cell }
{
    match motion.taking {
        None => Cell {
            above: motion.above,
            taking: motion.inlet,
            thread: cell.thread.max(rank),
            ..cell
        },
        Some(_) => Cell {
            above: motion.above,
            taking: motion.inlet,
            joined: cell.joined.max(rank),
            ..cell
        },
    }
}

// What is kept of another instance, if there is one, behind a step of this rank.
fn raise(cells: &mut Vec<Cell>, place: Option<usize>, edge: Edge, rank: u64)
    ensures { cells.new.items ≡ at_place place (raised edge rank) cells.old.items }
{
    match place {
        None => {}
        Some(place) => {
            let cell = cell_at(cells.as_slice(), place);
            put(cells, place, raised(edge, rank, cell));
        }
    }
}

fn raised(edge: Edge, rank: u64, cell: Cell) -> Cell
    ensures { result ≡ raised edge rank cell }
{
    match edge {
        Edge::Taken => Cell {
            taken: cell.taken.max(rank),
            ..cell
        },
        Edge::Joined => Cell {
            joined: cell.joined.max(rank),
            ..cell
        },
    }
}
