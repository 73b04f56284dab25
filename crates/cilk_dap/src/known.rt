//! What does not change while a program is debugged.

use cilk_dap_messages::{SourceText, TextFile};
use cilk_debug::{Choice, Loaded, Memory};
use std::alloc::{AllocError, Global};

/// A program with a recorded schedule of it, as an editor asks for it.
#[derive(Drop)]
pub(crate) struct Known {
    pub program: Loaded,
    /// The worker of each choice.
    pub movers: Vec<u8>,
    /// The name of the file of its text.
    pub name: String,
    /// Whether that file has the canonical text, whose lines are those that are told.
    pub is_canonical: bool,
}

impl Known {
    /// What is known of a program, whose text this is, and of these choices.
    pub(crate) fn of(
        alloc: Global,
        program: &Loaded,
        choices: &[Choice],
        source: SourceText<'_>,
    ) -> Result<Known, Memory> {
        let is_canonical = is_canonical(program, source.bytes)?;
        let movers = movers_of(alloc, choices)?;
        match named(alloc, program, source.name) {
            Err(memory) => {
                drop(movers);
                Err(memory)
            }
            Ok((program, name)) => Ok(Known {
                program,
                movers,
                name,
                is_canonical,
            }),
        }
    }

    /// The file of its text.
    pub(crate) fn file(&self) -> TextFile<'_> {
        TextFile {
            name: self.name.as_str(),
            is_canonical: self.is_canonical,
        }
    }

    /// The worker of the choice behind so many others, and 0 where there is none.
    pub(crate) fn mover(&self, made: u64) -> u64 {
        match self.movers.get(made as usize) {
            None => 0,
            Some(worker) => u64::from(*worker),
        }
    }
}

fn named(alloc: Global, program: &Loaded, name: &str) -> Result<(Loaded, String), Memory> {
    let name = String::from_str(alloc, name)?;
    match program.copy() {
        Err(memory) => {
            drop(name);
            Err(memory)
        }
        Ok(program) => Ok((program, name)),
    }
}

fn is_canonical(program: &Loaded, bytes: &[u8]) -> Result<bool, Memory> {
    let text = program.text()?;
    Ok(text.as_bytes() == bytes)
}

fn movers_of(alloc: Global, choices: &[Choice]) -> Result<Vec<u8>, AllocError> {
    let mut movers = Vec::new(alloc);
    movers.reserve(choices.len())?;
    for choice in choices {
        movers.push(choice.worker)?;
    }
    Ok(movers)
}
