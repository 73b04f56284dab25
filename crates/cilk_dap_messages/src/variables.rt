//! Variables in the lines of views, and what is told of them.

use crate::activation::Activation;
use crate::lines::{standing_in, variable_in};
use crate::message::Message;
use std::alloc::AllocError;

/// The variables of activations.
pub fn put_variables_in(found: &[Activation], message: &mut Message) -> Result<(), AllocError> {
    for activation in found {
        put_variables(activation.variables.as_str(), message)?;
    }
    Ok(())
}

/// The variables that a view tells.
pub fn put_variables(view: &str, message: &mut Message) -> Result<(), AllocError> {
    for line in view.lines() {
        if let Some((name, value)) = variable_in(line) {
            put_variable(name, value, message)?;
        }
    }
    Ok(())
}

/// The locks or the deques that a view tells.
pub fn put_standings(view: &str, message: &mut Message) -> Result<(), AllocError> {
    for line in view.lines() {
        if let Some((name, value)) = standing_in(line) {
            put_variable(name, value, message)?;
        }
    }
    Ok(())
}

fn put_variable(name: &str, value: &str, message: &mut Message) -> Result<(), AllocError> {
    message.begin_item()?;
    message.text("name", name)?;
    message.text("value", value)?;
    message.number("variablesReference", 0)?;
    message.end()
}

/// What is evaluated comes to this.
pub fn put_result(text: &str, message: &mut Message) -> Result<(), AllocError> {
    message.begin("body")?;
    message.text("result", text)?;
    message.number("variablesReference", 0)?;
    message.end()
}

/// The same, and that a value was found.
pub fn put_found(value: &str, message: &mut Message) -> Result<bool, AllocError> {
    put_result(value, message)?;
    Ok(true)
}

/// The value of the variable of this name, of the first activation.
pub fn local_in<'a>(found: &'a [Activation], name: &str) -> Option<&'a str> {
    match found.get(0) {
        None => None,
        Some(activation) => value_in(activation.variables.as_str(), name),
    }
}

/// The value of the variable of this name, among those that a view tells.
pub fn value_in<'a>(view: &'a str, name: &str) -> Option<&'a str> {
    for line in view.lines() {
        if let Some((found, value)) = variable_in(line) {
            if found == name {
                return Some(value);
            }
        }
    }
    None
}
