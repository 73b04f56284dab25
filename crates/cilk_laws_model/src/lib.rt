//! Laws of the definitions of runs: over every list of possible choices where the instances are, what they go on with, and what becomes of each
//! path that was ever made; and over every state in order that the step which is taken is one that the written rule allows.
#![tactic(auto)]

mod fate_laws;
mod laws;
mod rule_laws;

pub use cilk_model::{Global, GlobalShape, Item, ItemNode, Program, Word};
pub use fate_laws::{each_choice_is_an_event, fates_move_on, the_living_live};
pub use laws::{
    a_program_is_stuck_on_locks_alone, choices_are_made_one_by_one, each_holder_of_a_lock_lives,
    each_instance_has_a_head, each_instance_is_in_its_place, each_leaf_is_busy, limits_are_kept,
    no_more_leaves_than_workers, one_worker_has_one_leaf, some_choice_is_possible,
    stuck_where_no_choice_is_possible, the_end_is_empty,
};
pub use rule_laws::{
    each_choice_keeps_the_rule, each_pick_is_allowed, each_state_is_in_order, each_wait_is_forced,
    synched_means_nothing_to_wait_for, written_rule_leaves_one_state,
};
