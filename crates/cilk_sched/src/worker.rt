//! The hand and the deque of one worker.

ghost use Rattle.std.specs.Prelude.{◌≡◌, ◌<◌, ◌-◌, ◌++◌, ◌∷◌, [], Some, None, length, option_map, slice_get, IfErr, IfOk, IfSome, OnErr, OnOk};
ghost use Rattle.std.specs.Option.{option_copied};
ghost use Rattle.cilk_frame.specs.model.Hands.{no_place, top_of, below_top, bottom_of, above_bottom};
ghost use Rattle.cilk_frame.specs.Frames as frames;
ghost use Rattle.cilk_frame.specs.Frames.{gone_to, stood, entered, left, with_cell, put_top, put_below};

use crate::worker_image::{WorkerImage, deque_image, deque_restored, hand_image, hand_restored};
use cilk_frame::{Activation, Frame, Memory};
use std::alloc::Global;
use std::collections::VecDeque;
use std::marker::Model;

/// What one worker has.
pub struct Worker {
    hand: Option<Frame>,
    deque: VecDeque<Frame>,
}

// To drop it elsewhere is to call this, and its parts' drops are proved here alone.
impl Drop for Worker {
    fn drop(self) {
        let Worker {
            hand: _hand,
            deque: _deque,
        } = self;
    }
}

impl Model for Worker {
    ghost use Rattle.cilk_frame.specs.model.Hands as seen;
    ghost use Rattle.cilk_frame.specs.Frames.{Frame};

    ghost Value = { seen.WorkerOf Frame };

    ghost view = { λ p. record { hand = p.hand; deque = p.deque.items } };
}

impl Worker {
    pub fn new(alloc: Global) -> Worker
        ensures { result ≡ no_place }
    {
        Worker {
            hand: None,
            deque: VecDeque::new(alloc),
        }
    }

    pub fn hand(&self) -> Option<&Frame>
        ensures { option_copied result ≡ self.now.hand }
    {
        self.hand.as_ref()
    }

    pub fn len(&self) -> usize
        ensures { result ≡ length self.now.deque }
    {
        self.deque.len()
    }

    pub fn queued(&self, i: usize) -> Option<&Frame>
        ensures { option_copied result ≡ slice_get self.now.deque i }
    {
        self.deque.get(i)
    }

    pub fn give(&mut self, frame: Frame)
        ensures { self.new ≡ record self.old { hand = Some frame } }
    {
        self.hand = Some(frame);
    }

    pub fn take(&mut self) -> Option<Frame>
        ensures value { result ≡ self.old.hand }
        ensures rest { self.new ≡ record self.old { hand = None } }
    {
        self.hand.take()
    }

    /// The instance in the hand goes on with action n, as an action is acted.
    pub fn go_on(&mut self, n: u32)
        ensures { self.new ≡ record self.old { hand = option_map (gone_to n) self.old.hand } }
    {
        match &mut self.hand {
            None => {}
            Some(frame) => frame.go_on(n),
        }
    }

    /// Puts a value into a cell of the activation that goes on.
    pub fn set_top_cell(&mut self, slot: u32, value: i32)
        requires { IfSome self.old.hand (λ f. slot < length (frames.top_of f).cells) }
        ensures { self.new ≡ record self.old { hand = option_map (put_top slot value) self.old.hand } }
    {
        match &mut self.hand {
            None => {}
            Some(frame) => {
                let top = frame.depth() - 1;
                frame.set_cell(top, slot, value);
            }
        }
    }

    /// Puts a value into a cell of the procedure's own activation.
    pub fn set_lowest_cell(&mut self, slot: u32, value: i32)
        requires { IfSome self.old.hand (λ f. slot < length (frames.activation_at f 0).cells) }
        ensures { self.new ≡ record self.old { hand = option_map (with_cell 0 slot value) self.old.hand } }
    {
        match &mut self.hand {
            None => {}
            Some(frame) => frame.set_cell(0, slot, value),
        }
    }

    /// The body above the others, in the hand, is left.
    pub fn leave(&mut self)
        requires { IfSome self.old.hand (λ f. 1 < frames.depth f) }
        ensures { self.new ≡ record self.old { hand = option_map left self.old.hand } }
    {
        match &mut self.hand {
            None => {}
            Some(frame) => {
                let _awaited = frame.leave();
            }
        }
    }

    pub fn push_bottom(&mut self, frame: Frame) -> Result<(), Frame>
        ensures ok { OnOk result (self.new ≡ record self.old { deque = self.old.deque ++ frame ∷ [] }) }
        ensures err { OnErr result (self.new ≡ self.old) }
        ensures back { IfErr result (λ f. f ≡ frame) }
    {
        self.deque.push_back(frame).map_err(|failed| failed.value)
    }

    pub fn pop_bottom(&mut self) -> Option<Frame>
        ensures value { result ≡ bottom_of self.old.deque }
        ensures rest { self.new ≡ record self.old { deque = above_bottom self.old.deque } }
    {
        self.deque.pop_back()
    }

    pub fn steal_top(&mut self) -> Option<Frame>
        ensures value { result ≡ top_of self.old.deque }
        ensures rest { self.new ≡ record self.old { deque = below_top self.old.deque } }
    {
        self.deque.pop_front()
    }

    /// Puts a value into a cell of the activation below the one that goes on.
    pub fn set_cell_below(&mut self, slot: u32, value: i32)
        requires { IfSome self.old.hand (λ f. (1 < frames.depth f) × (slot < length (frames.activation_at f (frames.depth f - 2)).cells)) }
        ensures { self.new ≡ record self.old { hand = option_map (put_below slot value) self.old.hand } }
    {
        match &mut self.hand {
            None => {}
            Some(frame) => {
                let below = frame.depth() - 2;
                frame.set_cell(below, slot, value);
            }
        }
    }

    /// The instance in the hand stood at action n, with this flag.
    pub fn stand(&mut self, n: u32, boundary: bool)
        ensures { self.new ≡ record self.old { hand = option_map (stood n boundary) self.old.hand } }
    {
        match &mut self.hand {
            None => {}
            Some(frame) => frame.stand(n, boundary),
        }
    }

    /// The body above the others, in the hand, is left, and answered as a whole.
    pub fn withdraw(&mut self) -> Option<Activation>
        requires { IfSome self.old.hand (λ f. 1 < frames.depth f) }
        ensures value { result ≡ option_map frames.top_of self.old.hand }
        ensures rest { self.new ≡ record self.old { hand = option_map left self.old.hand } }
    {
        match &mut self.hand {
            None => None,
            Some(frame) => Some(frame.withdraw()),
        }
    }

    /// A body that was left goes on again, in the hand.
    pub fn enter_again(&mut self, activation: Box<Activation>) -> Result<(), Box<Activation>>
        requires { IfSome self.old.hand (λ f. frames.depth f < 256) }
        ensures ok { OnOk result (self.new ≡ record self.old { hand = option_map (entered activation.value) self.old.hand }) }
        ensures err { OnErr result (self.new ≡ self.old) }
        ensures back { IfErr result (λ a. a.value ≡ activation.value) }
    {
        match &mut self.hand {
            None => Ok(()),
            Some(frame) => frame.enter_again(activation),
        }
    }

    pub fn push_top(&mut self, frame: Frame) -> Result<(), Frame>
        ensures ok { OnOk result (self.new ≡ record self.old { deque = frame ∷ self.old.deque }) }
        ensures err { OnErr result (self.new ≡ self.old) }
        ensures back { IfErr result (λ f. f ≡ frame) }
    {
        self.deque.push_front(frame).map_err(|failed| failed.value)
    }

    /// What it has now, as plain data.
    pub fn image(&self, alloc: Global) -> Result<WorkerImage, Memory>
        ensures { IfOk result (λ image. image ≡ self.now) }
    {
        let hand = hand_image(&self.hand)?;
        let deque = deque_image(alloc, &self.deque)?;
        Ok(WorkerImage { hand, deque })
    }

    /// A worker who has what that one had.
    pub fn restore(alloc: Global, image: &WorkerImage) -> Result<Worker, Memory>
        ensures { IfOk result (λ worker. worker ≡ image.now) }
    {
        let hand = hand_restored(&image.hand)?;
        let deque = deque_restored(alloc, image.deque.as_slice())?;
        Ok(Worker { hand, deque })
    }
}
