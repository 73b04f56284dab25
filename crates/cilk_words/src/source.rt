//! What a name on the command line stands for: the standard input, or a file, and what is told of that file before a log takes its place.

ghost use Rattle.cilk_words.specs.Source.{IsSource};

use std::fs;
use std::fs::File;
use std::io::Read;
use std::os::unix::fs::MetadataExt;

/// What a name stands for.
pub enum Source<'a> {
    /// The standard input.
    Standard,
    /// The file at this path.
    Path(&'a str),
}

/// What this name stands for.
pub fn source_of<'a>(name: &'a str) -> Source<'a>
    ensures { IsSource name.now result }
{
    if name == "-" {
        Source::Standard
    } else {
        Source::Path(name)
    }
}

/// Whether a log of this name would be written to the file that the program's text came from.
pub fn is_same_file(rt: &HostRuntime, program: &str, log: &str) -> bool {
    let path = match source_of(program) {
        Source::Standard => STANDARD_INPUT,
        Source::Path(path) => path,
    };
    match (fs::metadata(rt, path), fs::metadata(rt, log)) {
        (Ok(one), Ok(other)) => {
            other.is_file() && one.dev() == other.dev() && one.ino() == other.ino()
        }
        _ => false,
    }
}

const STANDARD_INPUT: &str = "/dev/stdin";

// How a log begins, of either version.
const LOG_FRONT: &[u8] = b"cilklog ";

/// Whether a file is there that does not begin as a log does. Who asks for logs by a folder has named none of these files.
pub fn is_no_log(rt: &HostRuntime, path: &str) -> bool {
    match fs::metadata(rt, path) {
        Ok(found) => found.is_file() && !begins_as_log(rt, path),
        Err(_) => false,
    }
}

fn begins_as_log(rt: &HostRuntime, path: &str) -> bool {
    let mut front = [0; 8];
    match File::open(rt, path) {
        Ok(mut file) => file.read_exact(&mut front).is_ok() && front.as_slice() == LOG_FRONT,
        Err(_) => false,
    }
}
