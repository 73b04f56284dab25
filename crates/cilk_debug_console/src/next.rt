//! What the next line of an input is: a command, the last command, or no line at all.

use crate::command::Command;

/// What stands next in an input.
#[derive(Drop)]
pub enum NextLine {
    /// A line with its newline asks this.
    Line(Command),
    /// The last line, which has no newline, asks this.
    Last(Command),
    /// No byte is left.
    End,
}
