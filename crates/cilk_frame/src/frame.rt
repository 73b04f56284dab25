//! The frame of an instance: its activations, of which the top one goes on, and its boundary flag.

ghost use Rattle.std.specs.Prelude.{◌≡◌, ◌<◌, ◌≤◌, ◌∷◌, [], false, length, None, Some, Decides, OnErr, OnOk, IfOk, IfErr};
ghost use Rattle.cilk_frame.specs.Frames.{depth, activation_at, top_of, with_cell, jumped, with_boundary, gone_to, stood, entered, left};
ghost use Rattle.cilk_frame.specs.Starts.{activation_of};
ghost use Rattle.cilk_frame.specs.Alike.{SameFrame};

use crate::activation::{Activation, are_same, copies};
use crate::awaited::Await;
use crate::id::Id;
use crate::image::FrameImage;
use crate::mixer::Mixer;
use cilk_load_nodes::{Body, Memory};
use std::alloc::Global;
use std::marker::Model;

/// Where an instance goes on, and what its variables hold. It has an owner, and there is no second
/// one of an instance: it cannot be copied.
pub struct Frame {
    pub(crate) id: Id,
    pub(crate) activations: Vec<Activation>,
    pub(crate) boundary: bool,
}

// To drop it elsewhere is to call this, and its parts' drops are proved here alone.
impl Drop for Frame {
    fn drop(self) {
        let Frame {
            id: _,
            activations: _activations,
            boundary: _,
        } = self;
    }
}

impl Model for Frame {
    ghost use Rattle.std.specs.Prelude.{◌<◌, ◌≤◌, length};
    ghost use Rattle.cilk_frame.specs.Frames as frames;

    ghost Value = { frames.Frame };

    ghost view = { λ f. record { id = f.id; activations = f.activations.items; boundary = f.boundary } };

    ghost invariant = { λ f. (0 < length f.activations.items) × (length f.activations.items ≤ 256) };
}

impl Frame {
    /// The most activations that an instance may have.
    pub const DEPTH: u32 = 256;

    /// An instance of a procedure at its start. There are as many arguments as it has parameters.
    pub fn start(alloc: Global, id: Id, body: &Body, arguments: &[i32]) -> Result<Frame, Memory>
        requires { length arguments.now ≡ body.now.params }
        ensures { IfOk result (λ frame. frame ≡ record {
          id = id;
          activations = activation_of body.now arguments.now None ∷ [];
          boundary = false;
        }) }
    {
        let mut activations = Vec::with_capacity(alloc, 1)?;
        activations.push(Activation::start(alloc, body, arguments, None)?)?;
        Ok(Frame {
            id,
            activations,
            boundary: false,
        })
    }

    /// Whose frame it is.
    pub fn id(&self) -> Id
        ensures { result ≡ self.now.id }
    {
        self.id
    }

    /// The boundary flag: the last action of the procedure was a spawn (Cilk 5.4 manual, `inlet`).
    pub fn at_boundary(&self) -> bool
        ensures { result ≡ self.now.boundary }
    {
        self.boundary
    }

    /// How many activations there are: the procedure's own, and those above it.
    pub fn depth(&self) -> u32
        ensures value { result ≡ depth self.now }
        ensures some { 0 < result }
        ensures limit { result ≤ 256 }
    {
        self.activations.len() as u32
    }

    /// The number of the action with which activation i goes on, that of the procedure being 0.
    pub fn node(&self, i: u32) -> u32
        requires { i < depth self.now }
        ensures { result ≡ (activation_at self.now i).node }
    {
        let activation = &self.activations[i as usize];
        activation.node()
    }

    /// The cells of activation i, that of the procedure being 0.
    pub fn cells(&self, i: u32) -> &[i32]
        requires { i < depth self.now }
        ensures { result.now ≡ (activation_at self.now i).cells }
    {
        let activation = &self.activations[i as usize];
        activation.cells()
    }

    /// Whether the other goes on as this one does, whosever they are.
    pub fn goes_on_as(&self, other: &Frame) -> bool
        ensures { Decides result (SameFrame self.now other.now) }
    {
        self.boundary == other.boundary
            && are_same(self.activations.as_slice(), other.activations.as_slice())
    }

    /// Where it goes on enters a number that tells states apart, but not whose it is.
    pub fn mix(&self, mixer: &mut Mixer) {
        mixer.put(self.boundary as u64);
        for activation in &self.activations {
            activation.mix(mixer);
        }
    }

    /// What awaits the value of the top activation.
    pub fn awaits(&self) -> Option<Await>
        ensures { result ≡ (top_of self.now).awaits }
    {
        let top = self.activations.len() - 1;
        let activation = &self.activations[top];
        activation.awaits()
    }

    /// Puts a value into a cell of activation i.
    pub fn set_cell(&mut self, i: u32, slot: u32, value: i32)
        requires activation { i < depth self.old }
        requires cell { slot < length (activation_at self.old i).cells }
        ensures { self.new ≡ with_cell i slot value self.old }
    {
        let activation = &mut self.activations[i as usize];
        activation.set_cell(slot, value);
    }

    /// The top activation goes on with action n.
    pub fn jump(&mut self, n: u32)
        ensures { self.new ≡ jumped n self.old }
    {
        let top = self.activations.len() - 1;
        let activation = &mut self.activations[top];
        activation.jump(n);
    }

    /// The same, as an action is acted: one of the procedure's own clears the flag.
    pub fn go_on(&mut self, n: u32)
        ensures { self.new ≡ gone_to n self.old }
    {
        let boundary = self.boundary && 1 < self.activations.len();
        self.jump(n);
        self.boundary = boundary;
    }

    /// Sets the boundary flag, or clears it.
    pub fn set_boundary(&mut self, boundary: bool)
        ensures { self.new ≡ with_boundary boundary self.old }
    {
        self.boundary = boundary;
    }

    /// Another body goes on, with as many arguments as it has parameters: a C function that is
    /// called, or an inlet.
    pub fn enter(
        &mut self,
        body: &Body,
        arguments: &[i32],
        awaits: Option<Await>,
    ) -> Result<(), Memory>
        requires takes { length arguments.now ≡ body.now.params }
        requires room { depth self.old < 256 }
        ensures ok { OnOk result (self.new ≡ entered (activation_of body.now arguments.now awaits) self.old) }
        ensures err { OnErr result (self.new ≡ self.old) }
    {
        let alloc = *self.activations.allocator();
        let activation = Activation::start(alloc, body, arguments, awaits)?;
        self.activations.push(activation)?;
        Ok(())
    }

    /// The top activation is left. Answers what awaits its value.
    pub fn leave(&mut self) -> Option<Await>
        requires { 1 < depth self.old }
        ensures value { result ≡ (top_of self.old).awaits }
        ensures frame { self.new ≡ left self.old }
    {
        match self.activations.pop() {
            None => unreachable!(),
            Some(activation) => activation.awaits(),
        }
    }

    /// Spends the frame: its instance is no more.
    pub fn finish(self) {
        let Frame {
            id: _,
            activations: _,
            boundary: _,
        } = self;
    }

    /// The top activation stood at action n, and this was the flag: what `jump` and `set_boundary` changed is put back.
    pub fn stand(&mut self, n: u32, boundary: bool)
        ensures { self.new ≡ stood n boundary self.old }
    {
        self.jump(n);
        self.set_boundary(boundary);
    }

    /// The top activation is left, and answered as a whole.
    pub fn withdraw(&mut self) -> Activation
        requires { 1 < depth self.old }
        ensures value { result ≡ top_of self.old }
        ensures frame { self.new ≡ left self.old }
    {
        match self.activations.pop() {
            None => unreachable!(),
            Some(activation) => activation,
        }
    }

    /// An activation that was left goes on again. Where memory has run out, it comes back, and nothing has changed.
    pub fn enter_again(&mut self, activation: Box<Activation>) -> Result<(), Box<Activation>>
        requires room { depth self.old < 256 }
        ensures ok { OnOk result (self.new ≡ entered activation.value self.old) }
        ensures err { OnErr result (self.new ≡ self.old) }
        ensures back { IfErr result (λ a. a.value ≡ activation.value) }
    {
        match self.activations.reserve(1) {
            Err(_) => Err(activation),
            Ok(()) => {
                self.activations.push_reserved(Box::into_inner(activation));
                Ok(())
            }
        }
    }

    /// What it is now, as plain data.
    pub fn image(&self) -> Result<FrameImage, Memory>
        ensures { IfOk result (λ image. image ≡ self.now) }
    {
        let alloc = *self.activations.allocator();
        Ok(FrameImage {
            id: self.id,
            activations: copies(self.activations.as_slice(), alloc)?,
            boundary: self.boundary,
        })
    }

    /// A frame as that was.
    pub fn restore(image: &FrameImage) -> Result<Frame, Memory>
        ensures { IfOk result (λ frame. frame ≡ image.now) }
    {
        let alloc = *image.activations.allocator();
        Ok(Frame {
            id: image.id,
            activations: copies(image.activations.as_slice(), alloc)?,
            boundary: image.boundary,
        })
    }
}
