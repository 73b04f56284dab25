//! The tree of instances: who spawned whom, which values wait for a parent, and which frames are
//! parked (Cilk 5.4 manual, `spawn`, `sync`, `abort`).
//!
//! A frame that was parked is the tree's, until it is taken out again. The compiler refuses this
//! function, since a frame that was parked is the caller's no more:
//!
//! ```compile_fail borrow-e0382
//! ghost use Rattle.std.specs.Prelude.{◌≡◌, None, true};
//! ghost use Rattle.cilk_spawn.specs.Nodes.{node_at, is_live};
//!
//! use cilk_frame::Frame;
//! use cilk_spawn::Tree;
//!
//! pub fn used_after_park(tree: &mut Tree, frame: Frame) -> u32
//!     requires live { is_live (node_at tree.old.nodes frame.id) ≡ true }
//!     requires free { (node_at tree.old.nodes frame.id).parked ≡ None }
//! {
//!     tree.park(frame);
//!     frame.depth()
//! }
//! ```
#![tactic(auto)]

mod birth;
mod delivery;
mod ending;
mod fate;
mod laws;
mod leaving;
mod life;
mod living_image;
mod putting;
mod record;
mod remains;
mod taken;
mod tree;
mod tree_image;

pub use cilk_frame::{
    Action, Area, Arguments, Await, BinOp, Code, Frame, Id, LockAction, Memory, Mixer, Path,
    Receiver, Slot, SlotPlace, Slots, Taker, Target, Trap, TrapKind, What,
};
pub use delivery::Delivery;
pub use ending::Ending;
pub use fate::Fate;
pub use laws::{
    a_return_ends_and_sends, ids_change, paths_are_names, paths_stay, trees_stay_trees,
};
pub use living_image::LivingImage;
pub use remains::Remains;
pub use taken::Taken;
pub use tree::Tree;
pub use tree_image::TreeImage;
