//! When the machine stands as the definitions of runs say, and that each of its steps keeps this: the machine names an instance by its id, and the
//! definitions by its path. And what it is to look at all that a program may do: when two standings have one future, and two machines, how a run ends, and what
//! a search for the endings has found; with the laws on which it rests. Definitions and laws alone, but for what a lock is,
//! and whether the workers of two machines have the same.
#![tactic(auto)]

mod alike_laws;
mod laws;
mod lock;
mod matching;
mod search_laws;
mod search_rows;

pub use alike_laws::{
    machines_alike_but_for_names_stand_so, machines_of_the_same_parts_stand_at_the_same,
};
pub use cilk_laws_model::{Global, GlobalShape, Item, ItemNode, Program, Word};
pub use cilk_sched::{Activation, Area, Body, Hands, HandsImage, Var};
pub use cilk_spawn::{
    Delivery, Ending, Fate, Frame, Id, LivingImage, Mixer, Path, Remains, Taken, TrapKind, Tree,
    TreeImage, What,
};
pub use laws::{
    actions_keep_agreement, fates_are_kept, fates_are_one, moves_keep_agreement,
    questions_have_one_answer, steps_have_halves, steps_keep_agreement, the_opening_agrees,
};
pub use lock::Lock;
pub use matching::Both;
pub use search_laws::{
    each_standing_is_known, idle_workers_do_alike, more_workers_do_no_more, names_do_not_matter,
    over_where_no_choice_is_possible, sameness_but_names_is_kept, sameness_is_kept,
    searches_tell_rightly, the_endless_are_unmarked, the_same_end_alike, the_same_go_on_alike,
};
pub use search_rows::{
    rows_of_a_race_come_out, rows_of_locks_come_out, rows_of_names_come_out,
    rows_of_sameness_come_out,
};
