//! The commands that a line of a session may be, an empty or an unknown one among them.

use cilk_log::What;

/// What a line of a session asks of a debugger.
#[derive(Debug, Drop)]
pub enum Command {
    /// The next choice is made.
    Step,
    /// The last one is taken back.
    Back,
    /// To the position behind so many choices.
    Go(u64),
    /// Forward to a breakpoint.
    Next,
    /// Back to one.
    Previous,
    /// A breakpoint is set at the action of this number.
    Break(u32),
    /// The one at the action of this number is taken away.
    Clear(u32),
    /// The text of a view.
    View(What),
    /// The session ends.
    Quit,
    /// The line is empty.
    Nothing,
    /// No command is spelled so.
    Unknown,
}
