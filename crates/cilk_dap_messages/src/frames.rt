//! What is told of the frames of a stack.

use crate::activation::Activation;
use crate::asked::Asked;
use crate::frame_name::FrameName;
use crate::message::Message;
use crate::text_file::TextFile;
use std::alloc::{AllocError, Global};

// No more frames are told at once.
const MOST_FRAMES: usize = 1_000;

/// How many frames are asked for.
pub fn levels_of(asked: &Asked<'_>) -> usize {
    match asked.number("levels") {
        None | Some(0) => MOST_FRAMES,
        Some(levels) => (levels.min(MOST_FRAMES as u64)) as usize,
    }
}

/// Frames of a program with this text, of which the first one has this name.
pub fn put_frames(
    alloc: Global,
    first: FrameName,
    frames: &[Activation],
    file: TextFile<'_>,
    message: &mut Message,
) -> Result<(), AllocError> {
    message.begin_body("stackFrames")?;
    let mut name = first;
    for frame in frames {
        put_frame_of(alloc, name, frame, file, message)?;
        name.index = name.index.saturating_add(1);
    }
    message.end_body()
}

fn put_frame_of(
    alloc: Global,
    name: FrameName,
    frame: &Activation,
    file: TextFile<'_>,
    message: &mut Message,
) -> Result<(), AllocError> {
    put_begun_frame(name, frame, message)?;
    file.put_source(alloc, message)?;
    message.end()
}

// A frame begins.
fn put_begun_frame(
    name: FrameName,
    frame: &Activation,
    message: &mut Message,
) -> Result<(), AllocError> {
    message.begin_item()?;
    message.number("id", name.number())?;
    message.text("name", frame.name.as_str())?;
    message.number("line", frame.line)?;
    message.number("column", 1)
}
