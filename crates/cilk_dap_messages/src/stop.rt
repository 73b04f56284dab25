//! Why a program stands still, and the word for it.

/// Why a program stands still again.
#[derive(Clone, Copy)]
pub enum Stop {
    /// It was just opened, or begun again.
    Entry,
    /// So many choices were made as were asked for.
    Step,
    /// A breakpoint is at the next choice's action.
    Breakpoint,
    /// A watched variable has another value.
    Data,
    /// All choices were made.
    End,
    /// All were taken back.
    Start,
}

impl Stop {
    /// The word by which an editor is told.
    pub(crate) fn reason(self) -> &'static str {
        match self {
            Stop::Entry => "entry",
            Stop::Step => "step",
            Stop::Breakpoint => "breakpoint",
            Stop::Data => "data breakpoint",
            Stop::End => "end of the log",
            Stop::Start => "start of the log",
        }
    }
}
