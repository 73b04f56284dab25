//! Frames: where an instance of a procedure goes on, and what its variables hold.
//!
//! A frame has one owner, and there is no second frame of an instance. The compiler refuses each
//! of these functions, the first since a frame has no method `clone`, and the second since a frame
//! that was spent is no more:
//!
//! ```compile_fail unsupported-method
//! use cilk_frame::Frame;
//!
//! pub fn frame_is_cloned(frame: &Frame) -> Frame {
//!     frame.clone()
//! }
//! ```
//!
//! ```compile_fail borrow-e0382
//! use cilk_frame::Frame;
//!
//! pub fn used_after_finish(frame: Frame) -> u32 {
//!     frame.finish();
//!     frame.depth()
//! }
//! ```
//!
//! An image of a frame is plain data. It is no second frame, so the compiler refuses this function:
//!
//! ```compile_fail unknown-method
//! use cilk_frame::FrameImage;
//!
//! pub fn image_goes_on(image: &mut FrameImage) {
//!     image.go_on(1);
//! }
//! ```
#![tactic(auto)]

mod activation;
mod arguments;
mod awaited;
mod frame;
mod id;
mod image;
mod laws;
mod mixer;
mod path;
mod receiver;
mod trap_kind;
mod what;

pub use activation::Activation;
pub use arguments::Arguments;
pub use awaited::Await;
pub use cilk_load_nodes::{
    Action, Area, BinOp, Body, Code, CodeNode, LockAction, Memory, Slot, SlotPlace, Slots, Taker,
    Target, Trap, UnOp, Var,
};
pub use frame::Frame;
pub use id::Id;
pub use image::FrameImage;
pub use laws::{a_call_stands, a_start_stands, a_write_stands, an_action_stands, values_are_seen};
pub use mixer::Mixer;
pub use path::Path;
pub use receiver::Receiver;
pub use trap_kind::TrapKind;
pub use what::What;
