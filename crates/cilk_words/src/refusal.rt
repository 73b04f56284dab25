//! `NoRequest`: what is told where the words ask for no task: help, the version, or what is wrong.

use crate::clash::Clash;
use crate::plain::plain;
use clap::Error;
use clap::error::ErrorKind;
use std::alloc::Global;

/// Why the words ask for no task, with what is told instead.
#[derive(Drop)]
pub enum NoRequest {
    /// Help is asked for, which is this text.
    Help(String),
    /// The version is asked for, which is this line.
    Version(String),
    /// The words are wrong, as this text says.
    Usage(String),
    /// Words do not go together.
    Clash(Clash),
    /// Memory has run out.
    Memory,
}

impl NoRequest {
    ghost use Rattle.clap.specs.Words.{kind_of};
    ghost use Rattle.cilk_words.specs.Refusing.{TellsOf};

    /// What is told of an error of the command line.
    pub(crate) fn of_error(alloc: Global, error: &Error) -> NoRequest
        ensures { TellsOf (kind_of error.now) result }
    {
        if error.kind() == ErrorKind::OutOfMemory {
            return NoRequest::Memory;
        }
        let Ok(text) = format!(in alloc; "{error}") else {
            return NoRequest::Memory;
        };
        match error.kind() {
            ErrorKind::DisplayHelp => NoRequest::Help(text),
            ErrorKind::DisplayVersion => NoRequest::Version(text),
            _ => match plain(alloc, text.as_str()) {
                Ok(words) => NoRequest::Usage(words),
                Err(_) => NoRequest::Memory,
            },
        }
    }
}
