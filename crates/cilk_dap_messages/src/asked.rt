//! What a message asks.

use serde_json::Value;

/// A request: what is asked, its number, and its arguments.
#[derive(Clone, Copy)]
pub struct Asked<'a> {
    /// The number of the message, which the response tells again.
    pub number: u64,
    /// The word for what is asked.
    pub command: &'a str,
    /// What stands behind the word, where something does.
    pub arguments: Option<&'a Value>,
}

impl<'a> Asked<'a> {
    /// What is asked by a message, if it is a request.
    pub fn by(message: &'a Value) -> Option<Asked<'a>> {
        if text_in(message, "type") != Some("request") {
            return None;
        }
        Some(Asked {
            number: number_in(message, "seq")?,
            command: text_in(message, "command")?,
            arguments: message.get("arguments"),
        })
    }

    /// What has this name among the arguments.
    pub fn argument(&self, name: &str) -> Option<&'a Value> {
        match self.arguments {
            None => None,
            Some(arguments) => arguments.get(name),
        }
    }

    /// The text of this name among the arguments.
    pub fn text(&self, name: &str) -> Option<&'a str> {
        match self.arguments {
            None => None,
            Some(arguments) => text_in(arguments, name),
        }
    }

    /// The number of this name among the arguments.
    pub fn number(&self, name: &str) -> Option<u64> {
        match self.arguments {
            None => None,
            Some(arguments) => number_in(arguments, name),
        }
    }

    /// The worker that a request is about. There is none of number 0.
    pub fn thread(&self) -> u64 {
        self.number("threadId").unwrap_or(0)
    }

    /// What is true or false by this name among the arguments, or this where nothing is told.
    pub fn flag(&self, name: &str, untold: bool) -> bool {
        match self.argument(name) {
            None => untold,
            Some(value) => value.as_bool().unwrap_or(untold),
        }
    }
}

/// The text of this name in an object.
pub(crate) fn text_in<'a>(object: &'a Value, name: &str) -> Option<&'a str> {
    match object.get(name) {
        None => None,
        Some(value) => value.as_str(),
    }
}

/// The number of this name in an object.
pub fn number_in(object: &Value, name: &str) -> Option<u64> {
    match object.get(name) {
        None => None,
        Some(value) => value.as_u64(),
    }
}
