//! What one thing was over the columns of a picture: the hand of a worker, a variable, or a lock.

use crate::patch::Patch;
use cilk_log_replay::Memory;
use std::alloc::Global;

// So many characters of a value are kept.
const KEPT: usize = 80;

/// The values of one thing, from the left of a picture to the right.
pub struct Ribbon {
    pub(crate) name: String,
    pub(crate) patches: Vec<Patch>,
    // The whole of its last value.
    latest: String,
}

impl Drop for Ribbon {
    fn drop(self) {
        let Ribbon {
            name: _name,
            patches: _patches,
            latest: _latest,
        } = self;
    }
}

impl Ribbon {
    /// Before any column it has this value.
    pub(crate) fn new(alloc: Global, name: &str, value: &str) -> Result<Ribbon, Memory> {
        let mut ribbon = Ribbon {
            name: String::from_str(alloc, name)?,
            patches: Vec::new(alloc),
            latest: String::new(alloc),
        };
        ribbon.push(alloc, 0, value)?;
        Ok(ribbon)
    }

    /// Behind so many columns it has this value.
    pub(crate) fn note(&mut self, alloc: Global, at: usize, value: &str) -> Result<(), Memory> {
        if self.latest.as_str() == value {
            return Ok(());
        }
        self.push(alloc, at, value)
    }

    fn push(&mut self, alloc: Global, from: usize, value: &str) -> Result<(), Memory> {
        let text = front_of(alloc, value, KEPT)?;
        self.patches.push(Patch { from, text })?;
        self.latest = String::from_str(alloc, value)?;
        Ok(())
    }

    /// The whole of its last value.
    pub fn latest(&self) -> &str {
        self.latest.as_str()
    }
}

/// At most so many characters of a text.
pub(crate) fn front_of(alloc: Global, text: &str, most: usize) -> Result<String, Memory> {
    let mut front = String::new(alloc);
    let mut left = most;
    for letter in text.chars() {
        if left == 0 {
            break;
        }
        left -= 1;
        front.push(letter)?;
    }
    Ok(front)
}
