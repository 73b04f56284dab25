//! What the hands and deques of all workers were, as plain data.

use crate::worker_image::WorkerImage;
use std::marker::Model;

/// The hands and the deques that workers had. It shares no frame with them.
#[derive(Drop)]
pub struct HandsImage {
    pub(crate) places: Vec<WorkerImage>,
}

impl Model for HandsImage {
    ghost use Rattle.std.specs.Prelude.{List};
    ghost use Rattle.cilk_frame.specs.model.Hands as seen;
    ghost use Rattle.cilk_frame.specs.Frames.{Frame};

    ghost Value = { List (seen.WorkerOf Frame) };

    ghost view = { λ h. h.places.items };
}
