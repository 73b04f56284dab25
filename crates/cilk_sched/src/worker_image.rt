//! What the hand and the deque of one worker were, as plain data.

ghost use Rattle.std.specs.Prelude.{◌≡◌, IfOk};

use cilk_frame::{Frame, FrameImage, Memory};
use std::alloc::Global;
use std::collections::VecDeque;
use std::marker::Model;

/// What one worker had.
pub(crate) struct WorkerImage {
    pub(crate) hand: Option<FrameImage>,
    pub(crate) deque: Vec<FrameImage>,
}

// To drop it elsewhere is to call this, and its parts' drops are proved here alone.
impl Drop for WorkerImage {
    fn drop(self) {
        let WorkerImage {
            hand: _hand,
            deque: _deque,
        } = self;
    }
}

impl Model for WorkerImage {
    ghost use Rattle.cilk_frame.specs.model.Hands as seen;
    ghost use Rattle.cilk_frame.specs.Frames.{Frame};

    ghost Value = { seen.WorkerOf Frame };

    ghost view = { λ p. record { hand = p.hand; deque = p.deque.items } };
}

pub(crate) fn hand_image(hand: &Option<Frame>) -> Result<Option<FrameImage>, Memory>
    ensures { IfOk result (λ image. image ≡ hand.now) }
{
    match hand {
        None => Ok(None),
        Some(frame) => Ok(Some(frame.image()?)),
    }
}

pub(crate) fn hand_restored(image: &Option<FrameImage>) -> Result<Option<Frame>, Memory>
    ensures { IfOk result (λ hand. hand ≡ image.now) }
{
    match image {
        None => Ok(None),
        Some(image) => Ok(Some(Frame::restore(image)?)),
    }
}

pub(crate) fn deque_image(alloc: Global, deque: &VecDeque<Frame>) -> Result<Vec<FrameImage>, Memory>
    ensures { IfOk result (λ image. image.items ≡ deque.now.items) }
{
    let mut image = Vec::with_capacity(alloc, deque.len())?;
    for i in 0..deque.len() {
        image.push(deque[i].image()?)?;
    }
    Ok(image)
}

pub(crate) fn deque_restored(alloc: Global, image: &[FrameImage]) -> Result<VecDeque<Frame>, Memory>
    ensures { IfOk result (λ deque. deque.items ≡ image.now) }
{
    let mut deque = VecDeque::new(alloc);
    for frame in image {
        deque.push_back(Frame::restore(frame)?)?;
    }
    Ok(deque)
}
