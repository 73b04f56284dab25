//! One case of a `switch` in the tables.

/// The value of a `case`, and where it leads.
#[derive(Clone, Copy)]
pub struct Case {
    pub value: i32,
    /// The number of the action that comes next where the test has this value, if any comes in this body.
    pub to: Option<u32>,
}
