//! How the texts are opened that an editor names.

use cilk_dap::{Opened, Opening, SourceText, Unopened, Unplayable};
use cilk_program_runs::{
    Failure, FileNames, RecordFailure, Status, Taped, Texts, read_text, tape_in,
};
use std::alloc::{AllocError, Global};
use std::io::Read;

// The name that stands for standard input, which is the editor's.
const STANDARD: &str = "-";

/// Opens texts by their names. Why one is refused is told by the line that `debug` writes then.
#[derive(Drop)]
pub(crate) struct Opener<'t, T: Texts> {
    pub texts: &'t T,
}

impl<T: Texts> Opening for Opener<'_, T> {
    fn open(&self, alloc: Global, program: &str, log: &str) -> Result<Opened, Unopened> {
        match opened_by(alloc, self.texts, program, log) {
            Ok(opened) => Ok(opened),
            Err(why) => Err(unopened(alloc, &FileNames { program, log }, &why)),
        }
    }
}

// The names of files are texts' names.
fn opened_by<T: Texts>(
    alloc: Global,
    texts: &T,
    program: &str,
    log: &str,
) -> Result<Opened, RecordFailure> {
    if program == STANDARD {
        return Err(RecordFailure::Program(Failure::CannotRead));
    }
    if log == STANDARD {
        return Err(RecordFailure::CannotRead);
    }
    let bytes = match texts.open(program) {
        None => return Err(RecordFailure::Program(Failure::CannotRead)),
        Some(mut reader) => match read_text(alloc, &mut reader) {
            Err(failure) => return Err(RecordFailure::Program(failure)),
            Ok(bytes) => bytes,
        },
    };
    let source = SourceText {
        name: program,
        bytes: bytes.as_slice(),
    };
    opened_of(alloc, source, texts.open(log))
}

fn opened_of<L: Read + Drop>(
    alloc: Global,
    source: SourceText<'_>,
    log: Option<L>,
) -> Result<Opened, RecordFailure> {
    let Taped { program, log } = match tape_in(alloc, source.bytes, log) {
        Ok(taped) => taped,
        Err(why) => return Err(why),
    };
    match Opened::new(alloc, program, log, source) {
        Ok(opened) => Ok(opened),
        Err(unplayable) => {
            let Unplayable { log, fault } = unplayable;
            drop(log);
            Err(RecordFailure::Replay(fault))
        }
    }
}

// What the editor is told.
fn unopened(alloc: Global, names: &FileNames<'_>, why: &RecordFailure) -> Unopened {
    match failure_line(alloc, names, why) {
        Ok(Some(line)) => Unopened::Refused(line),
        Ok(None) | Err(_) => Unopened::Memory,
    }
}

// The line that tells of a failure, and none of want of memory, by which the line may break off too.
fn failure_line(
    alloc: Global,
    names: &FileNames<'_>,
    why: &RecordFailure,
) -> Result<Option<String>, AllocError> {
    let mut line = Vec::new(alloc);
    if let Status::Memory = why.report(names, &mut line) {
        return Ok(None);
    }
    match str::from_utf8(line.as_slice()) {
        Ok(text) => whole_line(alloc, text),
        Err(_) => Ok(None),
    }
}

// A text up to the newline that it ends with.
fn whole_line(alloc: Global, text: &str) -> Result<Option<String>, AllocError> {
    match text.strip_suffix('\n') {
        None => Ok(None),
        Some(line) => Ok(Some(String::from_str(alloc, line)?)),
    }
}
