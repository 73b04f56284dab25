//! What workers do, and where their frames are: choices and why they are refused, events, how a program ends, the closing text of a run, and the text
//! of a trap; and each worker has at most one frame in its hand, and a deque of others (Cilk 5.4 manual, work stealing).
//!
//! A frame is in one place, since there is no second one of an instance. The compiler refuses each
//! of these functions: the first leaves a frame where it was taken, and a frame has no method
//! `clone`; the other two use a frame that is with a worker already.
//!
//! ```compile_fail unknown-method
//! ghost use Rattle.cilk_frame.specs.model.Hands.{IsWorker};
//!
//! use cilk_frame::Frame;
//! use cilk_sched::Hands;
//!
//! pub fn left_behind(hands: &Hands, victim: u8) -> Option<Frame>
//!     requires { IsWorker hands.now victim }
//! {
//!     hands.queued(victim, 0).cloned()
//! }
//! ```
//!
//! ```compile_fail borrow-e0382
//! ghost use Rattle.std.specs.Prelude.{◌≡◌, None};
//! ghost use Rattle.cilk_frame.specs.model.Hands.{IsWorker, hand_of};
//!
//! use cilk_frame::Frame;
//! use cilk_sched::Hands;
//!
//! pub fn used_after_give(hands: &mut Hands, worker: u8, frame: Frame)
//!     requires worker { IsWorker hands.old worker }
//!     requires empty { hand_of hands.old worker ≡ None }
//! {
//!     hands.give(worker, frame);
//!     frame.finish();
//! }
//! ```
//!
//! ```compile_fail borrow-e0382
//! ghost use Rattle.cilk_frame.specs.model.Hands.{IsWorker};
//!
//! use cilk_frame::Frame;
//! use cilk_sched::Hands;
//!
//! pub fn used_after_push(hands: &mut Hands, worker: u8, frame: Frame) -> Result<(), Frame>
//!     requires { IsWorker hands.old worker }
//! {
//!     hands.push_bottom(worker, frame)?;
//!     Err(frame)
//! }
//! ```
#![tactic(auto)]

mod act;
mod choice;
mod closing;
mod end;
mod event;
mod fault;
mod hands;
mod hands_image;
mod laws;
mod naming;
mod outcome;
mod refusal;
mod worker;
mod worker_image;

pub use act::Act;
pub use choice::Choice;
pub use cilk_frame::{Activation, Area, Body, Memory, Path, Trap, TrapKind, Var, What};
pub use closing::ending;
pub use end::End;
pub use event::Event;
pub use fault::MachineFault;
pub use hands::Hands;
pub use hands_image::HandsImage;
pub use laws::{
    each_frame_is_counted, moves_are_counted, moves_come_back, names_are_read, names_go_along,
    others_keep_their_places,
};
pub use naming::put_trapped;
pub use outcome::Outcome;
pub use refusal::Refusal;
