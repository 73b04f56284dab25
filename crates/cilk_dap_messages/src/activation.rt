//! An activation of an instance: a procedure, an inlet or a function that goes on.

use crate::lines::put_line;
use std::alloc::{AllocError, Global};

/// An activation, as `frame` shows it.
pub struct Activation {
    /// The name of its procedure, inlet or function.
    pub name: String,
    /// The line on which it goes on.
    pub line: u64,
    /// A line for each of its variables.
    pub variables: String,
}

// To drop it elsewhere is to call this, and its fields' drops are proved here alone.
impl Drop for Activation {
    fn drop(self) {
        let Activation {
            name: _name,
            line: _,
            variables: _variables,
        } = self;
    }
}

impl Activation {
    /// One of this name, which goes on at a line, with a line for each variable.
    pub(crate) fn new(
        alloc: Global,
        name: &str,
        line: u64,
        variables: &[&str],
    ) -> Result<Activation, AllocError> {
        let variables = joined(alloc, variables)?;
        match String::from_str(alloc, name) {
            Err(memory) => {
                drop(variables);
                Err(memory)
            }
            Ok(name) => Ok(Activation {
                name,
                line,
                variables,
            }),
        }
    }
}

// Lines as one text.
fn joined(alloc: Global, lines: &[&str]) -> Result<String, AllocError> {
    let mut text = String::new(alloc);
    match put_lines(lines, &mut text) {
        Err(memory) => {
            drop(text);
            Err(memory)
        }
        Ok(()) => Ok(text),
    }
}

fn put_lines(lines: &[&str], out: &mut String) -> Result<(), AllocError> {
    for line in lines {
        put_line(line, out)?;
    }
    Ok(())
}
