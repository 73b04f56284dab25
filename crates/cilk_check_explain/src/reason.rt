//! Why a token cannot stand where it does, in words in which a name and a number have their places.

use crate::say::{say, say_number};
use cilk_check_scopes::Memory;

/// What is said. In the words `$` stands for the name, and `@` for the number, as that of a line.
#[derive(Clone, Copy)]
pub(crate) struct Reason<'a> {
    pub(crate) words: &'a str,
    pub(crate) more: &'a str,
    pub(crate) name: &'a str,
    pub(crate) number: usize,
}

impl<'a> Reason<'a> {
    /// One with a name.
    pub(crate) fn named(words: &'a str, name: &'a str) -> Reason<'a> {
        Reason::joined(words, "", name)
    }

    /// One of two parts.
    pub(crate) fn joined(words: &'a str, more: &'a str, name: &'a str) -> Reason<'a> {
        Reason {
            words,
            more,
            name,
            number: 0,
        }
    }

    pub(crate) fn numbered(words: &'a str, number: usize) -> Reason<'a> {
        Reason {
            words,
            more: "",
            name: "",
            number,
        }
    }

    pub(crate) fn say(self, out: &mut String) -> Result<(), Memory> {
        self.say_part(out, self.words)?;
        self.say_part(out, self.more)
    }

    fn say_part(self, out: &mut String, words: &str) -> Result<(), Memory> {
        let mut is_first = true;
        for part in words.split('$') {
            if !is_first {
                say(out, self.name)?;
            }
            is_first = false;
            self.say_numbered(out, part)?;
        }
        Ok(())
    }

    fn say_numbered(self, out: &mut String, words: &str) -> Result<(), Memory> {
        match words.split_once('@') {
            Some((before, behind)) => {
                say(out, before)?;
                say_number(out, self.number)?;
                say(out, behind)
            }
            None => say(out, words),
        }
    }
}
