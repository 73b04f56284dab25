//! What is seen of a step before it is made.

use cilk_log_replay::Plan;

/// What a worker is about to do.
#[derive(Drop)]
pub(crate) struct Glance {
    /// The path of the instance in its hand.
    pub instance: String,
    /// What its step is to do, if it has a frame in its hand.
    pub plan: Option<Plan>,
    /// What the expression of its step comes to, where that can be seen.
    pub value: Option<i32>,
}
