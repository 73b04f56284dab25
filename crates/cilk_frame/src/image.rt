//! What a frame was, as plain data.

ghost use Rattle.std.specs.Prelude.{◌≡◌};

use crate::activation::Activation;
use crate::frame::Frame;
use crate::id::Id;
use std::marker::Model;

/// What a frame was, from which frames are made again. It shares nothing with the frame, and nobody goes on with it.
pub struct FrameImage {
    pub(crate) id: Id,
    pub(crate) activations: Vec<Activation>,
    pub(crate) boundary: bool,
}

// To drop it elsewhere is to call this, and its parts' drops are proved here alone.
impl Drop for FrameImage {
    fn drop(self) {
        let FrameImage {
            id: _,
            activations: _activations,
            boundary: _,
        } = self;
    }
}

impl Model for FrameImage {
    ghost use Rattle.std.specs.Prelude.{◌<◌, ◌≤◌, length};
    ghost use Rattle.cilk_frame.specs.Frames as frames;

    ghost Value = { frames.Frame };

    ghost view = { λ f. record { id = f.id; activations = f.activations.items; boundary = f.boundary } };

    ghost invariant = { λ f. (0 < length f.activations.items) × (length f.activations.items ≤ 256) };
}

impl FrameImage {
    /// The frame of which it is the image, which spends it. It takes no memory.
    pub fn into_frame(self) -> Frame
        ensures { result ≡ self }
    {
        let FrameImage {
            id,
            activations,
            boundary,
        } = self;
        Frame {
            id,
            activations,
            boundary,
        }
    }
}
