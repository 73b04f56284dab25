//! What an editor may ask for, and the words for it.

/// What is asked for. Of each the protocol tells what its arguments are.
#[derive(Clone, Copy)]
pub enum Ask {
    /// What the adapter can do.
    Initialize,
    /// That a program and a log are opened.
    Launch,
    /// That the program begins, since all breakpoints are set.
    Begin,
    /// That some exceptions are breakpoints. There are none.
    SetExceptions,
    /// That the session ends.
    Terminate,
    /// That nothing more is answered.
    Disconnect,
    /// That breakpoints are set at lines.
    SetBreaks,
    /// That variables are watched.
    SetWatched,
    /// Whether a variable can be watched.
    Watchable,
    /// The workers.
    Threads,
    /// The frames of a worker.
    Stack,
    /// The scopes of a frame.
    Scopes,
    /// The variables of a scope.
    Variables,
    /// The canonical text.
    Source,
    /// The answer to a command, or the value of a variable.
    Evaluate,
    /// The next choice.
    StepIn,
    /// The last choice taken back.
    StepBack,
    /// The next choice of a worker.
    Next,
    /// The end of the instance in a worker's hand.
    StepOut,
    /// The next breakpoint.
    Continue,
    /// The last breakpoint.
    ReverseContinue,
    /// The start.
    Restart,
    /// Something that nobody knows here.
    Unknown,
}

// The words for what may be asked for.
const WORDS: &[(&str, Ask)] = &[
    ("initialize", Ask::Initialize),
    ("launch", Ask::Launch),
    ("configurationDone", Ask::Begin),
    ("setExceptionBreakpoints", Ask::SetExceptions),
    ("terminate", Ask::Terminate),
    ("disconnect", Ask::Disconnect),
    ("setBreakpoints", Ask::SetBreaks),
    ("setDataBreakpoints", Ask::SetWatched),
    ("dataBreakpointInfo", Ask::Watchable),
    ("threads", Ask::Threads),
    ("stackTrace", Ask::Stack),
    ("scopes", Ask::Scopes),
    ("variables", Ask::Variables),
    ("source", Ask::Source),
    ("evaluate", Ask::Evaluate),
    ("stepIn", Ask::StepIn),
    ("stepBack", Ask::StepBack),
    ("next", Ask::Next),
    ("stepOut", Ask::StepOut),
    ("continue", Ask::Continue),
    ("reverseContinue", Ask::ReverseContinue),
    ("restart", Ask::Restart),
];

/// What a word asks for. (A `match` over as many texts is dear to prove.)
pub fn ask_of(word: &str) -> Ask {
    ask_in(WORDS, word)
}

fn ask_in(rows: &[(&str, Ask)], word: &str) -> Ask {
    for (each, ask) in rows {
        if *each == word {
            return *ask;
        }
    }
    Ask::Unknown
}
