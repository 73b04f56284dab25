//! The activations of a frame: where an open body goes on, its cells, and what awaits its value.

ghost use Rattle.std.specs.Prelude.{◌≡◌, ◌<◌, length, slice_set, Decides, IfOk};
ghost use Rattle.cilk_frame.specs.Starts.{first_cells};

use crate::awaited::Await;
use crate::mixer::Mixer;
use cilk_load_nodes::{Body, Memory};
use std::alloc::Global;
use std::marker::Model;

/// A body that is being run. One that was left may be entered again.
#[derive(Drop)]
pub struct Activation {
    node: u32,
    cells: Vec<i32>,
    awaits: Option<Await>,
}

impl Model for Activation {
    ghost use Rattle.cilk_frame.specs.Frames as frames;

    ghost Value = { frames.Activation };

    ghost view = { λ a. record { node = a.node; cells = a.cells.items; awaits = a.awaits } };
}

impl Activation {
    pub(crate) fn start(
        alloc: Global,
        body: &Body,
        arguments: &[i32],
        awaits: Option<Await>,
    ) -> Result<Activation, Memory>
        ensures { IfOk result (λ a. a ≡ record {
          node = body.now.entry;
          cells = first_cells body.now.cells arguments.now;
          awaits = awaits;
        }) }
    {
        Ok(Activation {
            node: body.entry,
            cells: cells_of(alloc, body.cells as usize, arguments)?,
            awaits,
        })
    }

    /// An equal one.
    pub(crate) fn copy(&self) -> Result<Activation, Memory>
        ensures { IfOk result (λ a. a ≡ self.now) }
    {
        let alloc = *self.cells.allocator();
        Ok(Activation {
            node: self.node,
            cells: Vec::from_slice(alloc, self.cells.as_slice())?,
            awaits: self.awaits,
        })
    }

    /// Whether the other is equal.
    pub(crate) fn same(&self, other: &Activation) -> bool
        ensures { Decides result (self.now ≡ other.now) }
    {
        if self.node != other.node {
            return false;
        }
        if !is_same_await(self.awaits, other.awaits) {
            return false;
        }
        self.cells.as_slice() == other.cells.as_slice()
    }

    /// It enters a number that tells states apart.
    pub(crate) fn mix(&self, mixer: &mut Mixer) {
        mixer.put(self.node as u64);
        for cell in &self.cells {
            mixer.put_signed(*cell);
        }
        match self.awaits {
            None => mixer.put(0),
            Some(awaited) => mixer.put(1 + awaited.n as u64),
        }
    }

    pub(crate) fn node(&self) -> u32
        ensures { result ≡ self.now.node }
    {
        self.node
    }

    pub(crate) fn cells(&self) -> &[i32]
        ensures { result.now ≡ self.now.cells }
    {
        self.cells.as_slice()
    }

    pub(crate) fn awaits(&self) -> Option<Await>
        ensures { result ≡ self.now.awaits }
    {
        self.awaits
    }

    pub(crate) fn set_cell(&mut self, slot: u32, value: i32)
        requires { slot < length self.old.cells }
        ensures { self.new ≡ record self.old { cells = slice_set self.old.cells slot value } }
    {
        self.cells[slot as usize] = value;
    }

    pub(crate) fn jump(&mut self, n: u32)
        ensures { self.new ≡ record self.old { node = n } }
    {
        self.node = n;
    }
}

fn is_same_await(awaits: Option<Await>, other: Option<Await>) -> bool
    ensures { Decides result (awaits ≡ other) }
{
    match (awaits, other) {
        (None, None) => true,
        (Some(one), Some(another)) => one.n == another.n && one.index == another.index,
        _ => false,
    }
}

fn cells_of(alloc: Global, count: usize, arguments: &[i32]) -> Result<Vec<i32>, Memory>
    ensures { IfOk result (λ cells. cells.items ≡ first_cells count arguments.now) }
{
    let mut cells = Vec::with_capacity(alloc, count)?;
    cells.extend_from_slice(arguments)?;
    for _ in 0..count.saturating_sub(arguments.len()) {
        cells.push(0)?;
    }
    Ok(cells)
}

/// As many activations, each equal.
pub(crate) fn copies(activations: &[Activation], alloc: Global) -> Result<Vec<Activation>, Memory>
    ensures { IfOk result (λ made. made.items ≡ activations.now) }
{
    let mut made = Vec::with_capacity(alloc, activations.len())?;
    for activation in activations {
        made.push(activation.copy()?)?;
    }
    Ok(made)
}

/// Whether there are as many, each equal.
pub(crate) fn are_same(activations: &[Activation], others: &[Activation]) -> bool
    ensures { Decides result (activations.now ≡ others.now) }
{
    if activations.len() != others.len() {
        return false;
    }
    for i in 0..activations.len() {
        let activation = &activations[i];
        if !activation.same(&others[i]) {
            return false;
        }
    }
    true
}
