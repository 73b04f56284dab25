//! The record of a choice: made before its step (`note`), filled behind it (`fill`), and used to take the last choice back (`take_back`); and what parts were
//! at one moment, whole (`PartsImage`) or without what later parts tell as well (`Moment`).
#![tactic(auto)]

mod acting;
mod ending;
mod filling;
mod growth_laws;
mod laws;
mod listing;
mod moment;
mod moment_laws;
mod moving;
mod notes;
mod noting;
mod parts_image;
mod reading;
mod taking;
mod undo;
mod undoing;

pub use cilk_machine_plan::{
    Body, Both, Did, Done, Fate, Frame, Hands, Id, Light, Lock, Mixer, NoMemory, Outcome, Parts,
    Plan, Program, Spent, Tree, Var,
};
pub use filling::fill;
pub use growth_laws::{
    ended_are_cut, fates_are_within, moves_grow, plans_grow, plans_print, values_are_taken_once,
};
pub use laws::{moves_are_undone, plans_are_undone, plans_can_be_undone};
pub use moment::Moment;
pub use moment_laws::moments_are_told;
pub use notes::{note_go, note_write};
pub use noting::{note, note_lightly};
pub use parts_image::PartsImage;
pub use reading::depth_in_hand;
pub use undo::{Ended, Gone, Stood, Undo};
pub use undoing::take_back;
