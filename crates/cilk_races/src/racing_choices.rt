//! Two choices of a run that race.

/// Two choices of a run, by their numbers from 1 on, whose accesses race, and the name of the variable.
#[derive(Drop)]
pub struct RacingChoices {
    pub first: u64,
    pub second: u64,
    pub variable: String,
}
