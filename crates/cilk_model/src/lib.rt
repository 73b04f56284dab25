//! The labelled program, with what names mean and the values of expressions, and what its runs are: states, the written rule of one step, the step
//! that is taken, workers, and what the views of a program that runs say. Definitions alone, and the names of what has no value.
#![tactic(auto)]

mod labelled_laws;
mod laws;
mod trap;
mod view_laws;

pub use cilk_check_scopes::{
    BinOp, Checked, Global, GlobalShape, Item, ItemNode, LockAction, Memory, Owner, Program, UnOp,
    Word,
};
pub use labelled_laws::{rows_are_labelled, switches_are_labelled, switches_go_on};
pub use laws::{
    formats_are_printed, rows_of_calls_come_out, rows_of_control_come_out,
    rows_of_deliveries_come_out, rows_of_fates_come_out, rows_of_inlets_come_out,
    rows_of_locks_come_out, rows_of_marks_come_out, rows_of_refusals_come_out,
    rows_of_steps_come_out, rows_of_switches_come_out,
};
pub use trap::Trap;
pub use view_laws::{
    rows_of_globals_come_out, rows_of_one_worker_come_out, rows_of_places_come_out,
    rows_of_two_workers_come_out,
};
