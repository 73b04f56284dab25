//! A place of a program with the text at hand: the word that stands there.

use crate::front::Front;
use cilk_check_scopes::Program;

/// A place of a program's text.
#[derive(Clone, Copy)]
pub(crate) struct Site<'a, 'p> {
    pub(crate) front: Front<'a>,
    pub(crate) program: &'p Program,
    pub(crate) at: u32,
}

impl<'a, 'p> Site<'a, 'p> {
    /// How the token at the place is spelled.
    pub(crate) fn word(&self) -> &'a str {
        self.front.word()
    }

    /// The line of another place.
    pub(crate) fn line(&self, at: u32) -> usize {
        self.front.source.line(at)
    }
}
