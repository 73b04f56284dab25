//! Why a program is not launched.

/// Why a program is not launched.
#[derive(Drop)]
pub enum Unopened {
    /// Memory has run out.
    Memory,
    /// The program or the schedule is refused, or cannot be read: a line tells why.
    Refused(String),
}
