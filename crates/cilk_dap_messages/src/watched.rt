//! Watched variables: what is told of them, and which lines of a view are theirs.

use crate::asked::text_in;
use crate::lines::{put_line, variable_in};
use crate::message::Message;
use serde_json::Value;
use std::alloc::{AllocError, Global};

const UNWATCHABLE: &str = "only a variable of the top level can be watched";

/// Whether the variable of a name can be watched.
pub fn put_watchable(found: bool, name: &str, message: &mut Message) -> Result<(), AllocError> {
    message.begin("body")?;
    if found {
        message.text("dataId", name)?;
    } else {
        message.nothing("dataId")?;
    }
    message.text("description", if found { name } else { UNWATCHABLE })?;
    message.end()
}

/// Watches the variables of a list, where it is one, that a view tells of.
pub fn watch_all(
    view: &str,
    wanted: Option<&Value>,
    watched: &mut String,
    message: &mut Message,
) -> Result<(), AllocError> {
    message.begin_body("breakpoints")?;
    if let Some(Value::Array(wanted)) = wanted {
        for one in wanted {
            watch(view, one, watched, message)?;
        }
    }
    message.end_body()
}

// One more is watched, if there is such a variable.
fn watch(
    view: &str,
    wanted: &Value,
    watched: &mut String,
    message: &mut Message,
) -> Result<(), AllocError> {
    message.begin_item()?;
    match text_in(wanted, "dataId") {
        Some(name) if is_variable(view, name) => {
            put_line(name, watched)?;
            message.put_verified()
        }
        _ => message.put_unverified("there is no such variable of the top level"),
    }
}

/// Whether a view tells a variable of this name.
pub fn is_variable(view: &str, name: &str) -> bool {
    for line in view.lines() {
        if let Some((found, _)) = variable_in(line) {
            if found == name {
                return true;
            }
        }
    }
    false
}

/// The lines of a view that tell of the watched variables.
pub fn watched_in(alloc: Global, view: &str, watched: &str) -> Result<String, AllocError> {
    let mut values = String::new(alloc);
    match put_watched(view, watched, &mut values) {
        Err(memory) => {
            drop(values);
            Err(memory)
        }
        Ok(()) => Ok(values),
    }
}

fn put_watched(view: &str, watched: &str, out: &mut String) -> Result<(), AllocError> {
    for line in view.lines() {
        if is_watched(line, watched) {
            put_line(line, out)?;
        }
    }
    Ok(())
}

// Whether the variable of a line is watched.
fn is_watched(line: &str, watched: &str) -> bool {
    match variable_in(line) {
        None => false,
        Some((name, _)) => is_line(watched, name),
    }
}

fn is_line(text: &str, wanted: &str) -> bool {
    for line in text.lines() {
        if line == wanted {
            return true;
        }
    }
    false
}
