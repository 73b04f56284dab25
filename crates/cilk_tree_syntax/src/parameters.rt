//! The parameters of functions and procedures, and those of a `main` that is told of the command line.

use crate::word::Word;

/// The `int` parameters, or the two of the form of `main` that is told of the command line (C 1990, 5.1.2.2.1).
/// `parameters_of` of `specs/ProgramView.antt` is their plain tree.
pub enum Parameters {
    Ints(Vec<Word>),
    /// How many words the command line has, and the words.
    CommandLine(Word, Word),
}

// To drop it elsewhere is to call this, and its parts' drops are proved here alone.
impl Drop for Parameters {
    fn drop(self) {
        match self {
            Parameters::Ints(_names) => {}
            Parameters::CommandLine(_count, _words) => {}
        }
    }
}
