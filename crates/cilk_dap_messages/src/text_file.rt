//! What lines of frames and of breakpoints are lines of: the program's file where it has the canonical text, and else that text.

use crate::message::Message;
use serde_json::Value;
use std::alloc::{AllocError, Global};

// The number by which an editor asks for the canonical text.
const CANONICAL: u64 = 1;

/// The file of a program's text, as an editor knows it.
#[derive(Clone, Copy)]
pub struct TextFile<'a> {
    /// The path by which the editor names it.
    pub name: &'a str,
    /// Whether it has the canonical text, whose lines are those that are told.
    pub is_canonical: bool,
}

impl TextFile<'_> {
    /// Whether lines of a source are those of the canonical text.
    pub fn is_meant_by(self, source: Option<&Value>) -> bool {
        let Some(source) = source else {
            return false;
        };
        match source.get("sourceReference") {
            Some(number) if number.as_u64() == Some(CANONICAL) => true,
            _ => self.is_canonical && self.is_named(source.get("path")),
        }
    }

    fn is_named(self, path: Option<&Value>) -> bool {
        match path {
            None => false,
            Some(path) => path.as_str() == Some(self.name),
        }
    }

    /// What lines of frames are lines of.
    pub(crate) fn put_source(self, alloc: Global, message: &mut Message) -> Result<(), AllocError> {
        message.begin("source")?;
        if self.is_canonical {
            put_file(self.name, message)?;
        } else {
            self.put_canonical(alloc, message)?;
        }
        message.end()
    }

    fn put_canonical(self, alloc: Global, message: &mut Message) -> Result<(), AllocError> {
        self.put_title(alloc, message)?;
        message.text("origin", self.name)?;
        message.number("sourceReference", CANONICAL)
    }

    // The name of the canonical text.
    fn put_title(self, alloc: Global, message: &mut Message) -> Result<(), AllocError> {
        let name = last_of(self.name);
        let told = format!(in alloc; "canonical text of {name}")?;
        message.text("name", told.as_str())
    }
}

fn put_file(path: &str, message: &mut Message) -> Result<(), AllocError> {
    message.text("name", last_of(path))?;
    message.text("path", path)
}

// The name of a file, without its folder.
fn last_of<'a>(path: &'a str) -> &'a str {
    match path.rsplit_once('/') {
        None => path,
        Some((_, last)) => last,
    }
}

/// The canonical text.
pub fn put_content(text: &str, message: &mut Message) -> Result<(), AllocError> {
    message.begin("body")?;
    message.text("content", text)?;
    message.end()
}
