//! The plan of one step of an instance: what it says, and that it is the step that the definition of runs takes.
#![tactic(auto)]

mod boundary;
mod cell_writing;
mod did;
mod laws;
mod light;
mod lock_turning;
mod parts;
mod plan;
mod receiving;
mod spent;

pub use boundary::{is_between_threads, leaves};
pub use cell_writing::{Writing, write_cell};
pub use cilk_eval::{
    Arguments, Await, Bytes, Effect, Known, Listed, Memory, Reached, Receiver, Slots, assigned,
    combined, effect_of, eval, eval_known, held, is_known_of, known_of,
};
pub use cilk_machine_agree::{
    Activation, Area, Body, Both, Delivery, Ending, Fate, Frame, Hands, HandsImage, Id,
    LivingImage, Lock, Mixer, Path, Program, Remains, Taken, TrapKind, Tree, TreeImage, Var,
};
pub use did::{Did, Done, NoMemory, Outcome};
pub use laws::plans_are_steps;
pub use light::Light;
pub use lock_turning::turn_lock;
pub use parts::Parts;
pub use plan::Plan;
pub use receiving::received;
pub use spent::Spent;
