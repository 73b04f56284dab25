//! The files and the standard input of the system, as the places where the program finds its texts and keeps a log.

ghost use Rattle.std.specs.Prelude.{None, is_some};

use crate::within::name_within;
use cilk_program::{LogFolder, LogStore, Texts};
use cilk_words::{Source, is_no_log, is_same_file, replace_file, source_of};
use either::Either;
use std::alloc::{AllocError, Global};
use std::fs::File;
use std::io;
use std::io::ErrorKind;

/// The texts of the system: its files and its standard input.
#[derive(Clone, Copy)]
pub struct Host<'r> {
    pub rt: &'r HostRuntime,
}

type Stdin = <HostRuntime as Input>::Reader;

impl<'r> Texts for Host<'r> {
    type Reader = Either<Stdin, File>;

    type Commands = Stdin;

    type Store = LogFile<'r>;

    type Folder = LogFiles<'r>;

    ghost held = { λ host name. None };

    ghost entered = { λ host. None };

    fn open(&self, name: &str) -> Option<Either<Stdin, File>> {
        match source_of(name) {
            Source::Standard => Some(Either::Left(self.rt.reader())),
            Source::Path(path) => match File::open(self.rt, path) {
                Ok(file) => Some(Either::Right(file)),
                Err(_) => None,
            },
        }
    }

    fn commands(&self) -> Stdin {
        self.rt.reader()
    }

    fn log_store(
        &self,
        alloc: Global,
        program: &str,
        name: Option<&str>,
    ) -> Result<LogFile<'r>, AllocError> {
        match name {
            None => Ok(LogFile {
                rt: self.rt,
                path: None,
                is_program: false,
            }),
            Some(name) => Ok(LogFile {
                rt: self.rt,
                path: Some(String::from_str(alloc, name)?),
                is_program: is_same_file(self.rt, program, name),
            }),
        }
    }

    fn log_folder(
        &self,
        alloc: Global,
        program: &str,
        name: Option<&str>,
    ) -> Result<LogFiles<'r>, AllocError> {
        let path = match name {
            None => None,
            Some(name) => Some(String::from_str(alloc, name)?),
        };
        Ok(LogFiles {
            rt: self.rt,
            path,
            program: String::from_str(alloc, program)?,
        })
    }
}

/// The file that a log is written to, if there is one. It is created when the text of the log is there, and writing it takes no memory.
#[derive(Drop)]
pub struct LogFile<'r> {
    rt: &'r HostRuntime,
    path: Option<String>,
    /// The path leads to the file that the program came from.
    is_program: bool,
}

impl<'r> LogStore for LogFile<'r> {
    ghost wanted = { λ file. is_some file.path };

    ghost stored = { λ file. None };

    fn is_wanted(&self) -> bool {
        self.path.is_some()
    }

    fn is_apart(&self) -> bool {
        self.path.is_none() || !self.is_program
    }

    fn store(&mut self, text: &[u8]) -> io::Result<()> {
        match &self.path {
            Some(path) => replace_file(self.rt, path.as_str(), text),
            None => Ok(()),
        }
    }
}

/// The files of a folder that logs are written to, if there is one. Each is created when its text is there, or replaced if it is a log of before.
#[derive(Drop)]
pub struct LogFiles<'r> {
    rt: &'r HostRuntime,
    path: Option<String>,
    /// The name of the program's text.
    program: String,
}

impl<'r> LogFolder for LogFiles<'r> {
    ghost wanted = { λ files. is_some files.path };

    ghost stored = { λ files number. None };

    fn is_wanted(&self) -> bool {
        self.path.is_some()
    }

    fn store(&mut self, number: u64, text: &[u8]) -> io::Result<()> {
        let Some(folder) = &self.path else {
            return Ok(());
        };
        let name = name_within(folder.as_str(), number)?;
        let log = name.as_str();
        if is_same_file(self.rt, self.program.as_str(), log) || is_no_log(self.rt, log) {
            return Err(io::Error::from(ErrorKind::AlreadyExists));
        }
        replace_file(self.rt, log, text)
    }
}
