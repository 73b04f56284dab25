//! The hands and deques of all workers, by the numbers of the workers.

ghost use Rattle.std.specs.Prelude.{◌≡◌, ◌<◌, ◌-◌, ◌++◌, ◌∷◌, [], Some, None, length, replicate, option_map, slice_get, IfOk, IfErr, IfSome, OnErr, OnOk};
ghost use Rattle.std.specs.Option.{option_copied};
ghost use Rattle.cilk_frame.specs.model.Hands.{no_place, IsWorker, hand_of, deque_of, with_hand, with_deque, top_of, below_top, bottom_of, above_bottom};
ghost use Rattle.cilk_frame.specs.Frames as frames;
ghost use Rattle.cilk_frame.specs.Frames.{gone_to, stood, entered, left, with_cell, put_top, put_below};

use crate::hands_image::HandsImage;
use crate::worker::Worker;
use cilk_frame::{Activation, Frame, Memory};
use std::alloc::Global;
use std::marker::Model;

/// The hands and the deques of the workers, who are numbered from 1. Contracts see a list of
/// places, that of worker 1 first, with each deque from top to bottom. Every frame that is here is
/// owned: it comes in by a move, and goes out by one.
#[derive(Drop)]
pub struct Hands {
    places: Vec<Worker>,
}

impl Model for Hands {
    ghost use Rattle.std.specs.Prelude.{List};
    ghost use Rattle.cilk_frame.specs.model.Hands as seen;
    ghost use Rattle.cilk_frame.specs.Frames.{Frame};

    ghost Value = { List (seen.WorkerOf Frame) };

    ghost view = { λ h. h.places.items };
}

impl Hands {
    /// So many workers, who have nothing.
    pub fn new(alloc: Global, workers: u8) -> Result<Hands, Memory>
        ensures { IfOk result (λ hands. hands ≡ replicate workers no_place) }
    {
        let mut places = Vec::with_capacity(alloc, workers as usize)?;
        for _ in 0..workers {
            places.push(Worker::new(alloc))?;
        }
        Ok(Hands { places })
    }

    /// Puts a frame into the worker's hand, which is empty. It takes no memory.
    pub fn give(&mut self, worker: u8, frame: Frame)
        requires worker { IsWorker self.old worker }
        requires empty { hand_of self.old worker ≡ None }
        ensures { self.new ≡ with_hand self.old worker (Some frame) }
    {
        let place = &mut self.places[worker as usize - 1];
        place.give(frame);
    }

    /// Takes the frame out of the worker's hand. None where the hand is empty.
    pub fn take(&mut self, worker: u8) -> Option<Frame>
        requires { IsWorker self.old worker }
        ensures value { result ≡ hand_of self.old worker }
        ensures rest { self.new ≡ with_hand self.old worker None }
    {
        let place = &mut self.places[worker as usize - 1];
        place.take()
    }

    /// The instance in the worker's hand goes on with action n, as an action is acted.
    pub fn go_on(&mut self, worker: u8, n: u32)
        requires { IsWorker self.old worker }
        ensures { self.new ≡ with_hand self.old worker (option_map (gone_to n) (hand_of self.old worker)) }
    {
        let place = &mut self.places[worker as usize - 1];
        place.go_on(n);
    }

    /// The top activation of the frame in the worker's hand is left.
    pub fn leave(&mut self, worker: u8)
        requires worker { IsWorker self.old worker }
        requires inside { IfSome (hand_of self.old worker) (λ f. 1 < frames.depth f) }
        ensures { self.new ≡ with_hand self.old worker (option_map left (hand_of self.old worker)) }
    {
        let place = &mut self.places[worker as usize - 1];
        place.leave();
    }

    /// Puts a value into a cell of the top activation of the frame in the worker's hand.
    pub fn set_top_cell(&mut self, worker: u8, slot: u32, value: i32)
        requires worker { IsWorker self.old worker }
        requires cell { IfSome (hand_of self.old worker) (λ f. slot < length (frames.top_of f).cells) }
        ensures { self.new ≡ with_hand self.old worker (option_map (put_top slot value) (hand_of self.old worker)) }
    {
        let place = &mut self.places[worker as usize - 1];
        place.set_top_cell(slot, value);
    }

    /// Puts a value into a cell of the procedure's own activation of the frame in the worker's hand.
    pub fn set_lowest_cell(&mut self, worker: u8, slot: u32, value: i32)
        requires worker { IsWorker self.old worker }
        requires cell { IfSome (hand_of self.old worker) (λ f. slot < length (frames.activation_at f 0).cells) }
        ensures { self.new ≡ with_hand self.old worker (option_map (with_cell 0 slot value) (hand_of self.old worker)) }
    {
        let place = &mut self.places[worker as usize - 1];
        place.set_lowest_cell(slot, value);
    }

    /// Puts a frame below the others of the worker's deque. Where memory has run out, the frame
    /// comes back, and nothing has changed.
    pub fn push_bottom(&mut self, worker: u8, frame: Frame) -> Result<(), Frame>
        requires { IsWorker self.old worker }
        ensures ok { OnOk result (self.new ≡ with_deque self.old worker (deque_of self.old worker ++ frame ∷ [])) }
        ensures err { OnErr result (self.new ≡ self.old) }
        ensures back { IfErr result (λ f. f ≡ frame) }
    {
        let place = &mut self.places[worker as usize - 1];
        place.push_bottom(frame)
    }

    /// Takes the lowest frame out of the worker's deque. None where the deque is empty.
    pub fn pop_bottom(&mut self, worker: u8) -> Option<Frame>
        requires { IsWorker self.old worker }
        ensures value { result ≡ bottom_of (deque_of self.old worker) }
        ensures rest { self.new ≡ with_deque self.old worker (above_bottom (deque_of self.old worker)) }
    {
        let place = &mut self.places[worker as usize - 1];
        place.pop_bottom()
    }

    /// Takes the topmost frame out of the victim's deque, in constant time. None where the deque is
    /// empty.
    pub fn steal_top(&mut self, victim: u8) -> Option<Frame>
        requires { IsWorker self.old victim }
        ensures value { result ≡ top_of (deque_of self.old victim) }
        ensures rest { self.new ≡ with_deque self.old victim (below_top (deque_of self.old victim)) }
    {
        let place = &mut self.places[victim as usize - 1];
        place.steal_top()
    }

    /// Puts a value into a cell of the activation below the top one, of the frame in the worker's hand.
    pub fn set_cell_below(&mut self, worker: u8, slot: u32, value: i32)
        requires worker { IsWorker self.old worker }
        requires cell { IfSome (hand_of self.old worker)
            (λ f. (1 < frames.depth f) × (slot < length (frames.activation_at f (frames.depth f - 2)).cells)) }
        ensures { self.new ≡ with_hand self.old worker (option_map (put_below slot value) (hand_of self.old worker)) }
    {
        let place = &mut self.places[worker as usize - 1];
        place.set_cell_below(slot, value);
    }

    /// The instance in the worker's hand stood at action n, with this flag.
    pub fn stand(&mut self, worker: u8, n: u32, boundary: bool)
        requires { IsWorker self.old worker }
        ensures { self.new ≡ with_hand self.old worker (option_map (stood n boundary) (hand_of self.old worker)) }
    {
        let place = &mut self.places[worker as usize - 1];
        place.stand(n, boundary);
    }

    /// The top activation of the frame in the worker's hand is left, and answered as a whole.
    pub fn withdraw(&mut self, worker: u8) -> Option<Activation>
        requires worker { IsWorker self.old worker }
        requires inside { IfSome (hand_of self.old worker) (λ f. 1 < frames.depth f) }
        ensures value { result ≡ option_map frames.top_of (hand_of self.old worker) }
        ensures rest { self.new ≡ with_hand self.old worker (option_map left (hand_of self.old worker)) }
    {
        let place = &mut self.places[worker as usize - 1];
        place.withdraw()
    }

    /// An activation that was left goes on again, in the worker's hand. Where memory has run out, it
    /// comes back, and nothing has changed.
    pub fn enter_again(
        &mut self,
        worker: u8,
        activation: Box<Activation>,
    ) -> Result<(), Box<Activation>>
        requires worker { IsWorker self.old worker }
        requires room { IfSome (hand_of self.old worker) (λ f. frames.depth f < 256) }
        ensures ok { OnOk result (self.new ≡ with_hand self.old worker (option_map (entered activation.value) (hand_of self.old worker))) }
        ensures err { OnErr result (self.new ≡ self.old) }
        ensures back { IfErr result (λ a. a.value ≡ activation.value) }
    {
        let place = &mut self.places[worker as usize - 1];
        place.enter_again(activation)
    }

    /// Puts a frame above the others of the victim's deque. Where memory has run out, the frame
    /// comes back, and nothing has changed.
    pub fn push_top(&mut self, victim: u8, frame: Frame) -> Result<(), Frame>
        requires { IsWorker self.old victim }
        ensures ok { OnOk result (self.new ≡ with_deque self.old victim (frame ∷ deque_of self.old victim)) }
        ensures err { OnErr result (self.new ≡ self.old) }
        ensures back { IfErr result (λ f. f ≡ frame) }
    {
        let place = &mut self.places[victim as usize - 1];
        place.push_top(frame)
    }

    /// What they are now, as plain data.
    pub fn image(&self) -> Result<HandsImage, Memory>
        ensures { IfOk result (λ image. image ≡ self.now) }
    {
        let alloc = *self.places.allocator();
        let mut places = Vec::with_capacity(alloc, self.places.len())?;
        for place in &self.places {
            places.push(place.image(alloc)?)?;
        }
        Ok(HandsImage { places })
    }

    /// Hands as those were.
    pub fn restore(image: &HandsImage) -> Result<Hands, Memory>
        ensures { IfOk result (λ hands. hands ≡ image.now) }
    {
        let alloc = *image.places.allocator();
        let mut made = Vec::with_capacity(alloc, image.places.len())?;
        for place in &image.places {
            made.push(Worker::restore(alloc, place)?)?;
        }
        Ok(Hands { places: made })
    }

    /// The frame in the worker's hand. None where the hand is empty.
    pub fn hand(&self, worker: u8) -> Option<&Frame>
        requires { IsWorker self.now worker }
        ensures { option_copied result ≡ hand_of self.now worker }
    {
        let place = &self.places[worker as usize - 1];
        place.hand()
    }

    /// How many frames are in the worker's deque.
    pub fn len(&self, worker: u8) -> usize
        requires { IsWorker self.now worker }
        ensures { result ≡ length (deque_of self.now worker) }
    {
        let place = &self.places[worker as usize - 1];
        place.len()
    }

    /// Frame i of the worker's deque, the topmost being 0, and then None.
    pub fn queued(&self, worker: u8, i: usize) -> Option<&Frame>
        requires { IsWorker self.now worker }
        ensures { option_copied result ≡ slice_get (deque_of self.now worker) i }
    {
        let place = &self.places[worker as usize - 1];
        place.queued(i)
    }
}
