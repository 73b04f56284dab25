//! A part of a stack: the activations that an editor wants of it.

use crate::activation::Activation;
use crate::lines::{activation_in, lines_of};
use std::alloc::{AllocError, Global};

/// Some activations of a stack.
pub struct Part {
    alloc: Global,
    /// So many are to be passed over.
    passed: u64,
    /// So many are wanted behind these.
    most: usize,
    found: Vec<Activation>,
}

// To drop it elsewhere is to call this, and its fields' drops are proved here alone.
impl Drop for Part {
    fn drop(self) {
        let Part {
            alloc: _,
            passed: _,
            most: _,
            found: _found,
        } = self;
    }
}

impl Part {
    /// None yet, of which so many are to be passed over, and so many wanted behind these.
    pub fn new(alloc: Global, passed: u64, most: usize) -> Part {
        Part {
            alloc,
            passed,
            most,
            found: Vec::new(alloc),
        }
    }

    /// Whether some are still wanted.
    pub fn wants_more(&self) -> bool {
        self.found.len() < self.most
    }

    /// What was found.
    pub fn into_found(self) -> Vec<Activation> {
        let Part {
            alloc: _,
            passed: _,
            most: _,
            found,
        } = self;
        found
    }

    /// The last activation that a text tells is the innermost one.
    pub fn take_all(&mut self, text: &str) -> Result<(), AllocError> {
        let lines = lines_of(self.alloc, text)?;
        self.take_lines(lines.as_slice())
    }

    fn take_lines(&mut self, lines: &[&str]) -> Result<(), AllocError> {
        let mut end = lines.len();
        for start in (0..lines.len()).rev() {
            if let Some((name, line)) = activation_in(lines[start]) {
                self.take(name, line, lines_between(lines, start, end))?;
                end = start;
            }
        }
        Ok(())
    }

    // One more, where it is wanted.
    fn take(&mut self, name: &str, line: u64, variables: &[&str]) -> Result<(), AllocError> {
        if 0 < self.passed {
            self.passed -= 1;
            return Ok(());
        }
        if self.most <= self.found.len() {
            return Ok(());
        }
        let activation = Activation::new(self.alloc, name, line, variables)?;
        self.found.push(activation)?;
        Ok(())
    }
}

// The lines behind the one that begins an activation, up to the next such line.
fn lines_between<'l, 'a>(lines: &'l [&'a str], start: usize, end: usize) -> &'l [&'a str] {
    let last = end.min(lines.len());
    let first = start.saturating_add(1).min(last);
    &lines[first..last]
}
