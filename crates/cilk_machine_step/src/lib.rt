//! The step of an instance, planned before anything is changed; and which cells the next step reads and writes.
#![tactic(auto)]

mod access;
mod act;
mod cell_laws;
mod coming;
mod delivery;
mod laws;
mod leaving;
mod light;
mod locks;
mod look;
mod next;
mod peek;
mod plan;
mod privacy;
mod read;
mod reading;
mod scene;
mod spotting;
mod touching;
mod waiting;

pub use access::{Access, Spot};
pub use cell_laws::accesses_are_shown;
pub use cilk_load::{
    Action, Area, Code, CodeNode, LoadFault, Loaded, LockAction, Memory, Slot, Taker, Trap, load,
};
pub use cilk_machine_plan::{Known, Light, Listed, Path, Plan, TrapKind};
pub use laws::scenes_fit;
pub use light::plan_lightly;
pub use locks::locks_in;
pub use look::{
    code_numbered, is_seen, is_still_seen, look_ahead, number_ahead, plan_by_value, take_down,
};
pub use next::{accesses_in, number_in};
pub use peek::Peek;
pub use plan::plan_step;
pub use privacy::is_private;
pub use scene::Scene;
pub use waiting::has_to_wait;
