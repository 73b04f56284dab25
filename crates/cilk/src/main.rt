//! The program `cilk`, which reads Cilk 5.4 programs.
//!
//! No clause can promise that a file or a stream works, or that there is memory, so a body that
//! always says that one of them failed meets its contract too. Nor can one tell which file or stream
//! is which, nor what words the system gives, nor the words of help. Cases of the built program see
//! all of these.
#![tactic(auto)]

mod host;
mod within;

use cilk_program::{Streams, exit_code};
use cilk_words::seat;
use host::Host;
use std::process::ExitCode;
use std::sync::Wait;
use std::thread::Threads;
use std::{env, io};

fn main(rt: HostRuntime) -> ExitCode {
    // Where a standard stream is closed, something else takes its number, up to the end.
    let seats = [seat(&rt), seat(&rt), seat(&rt)];
    let code = code(&rt, &rt);
    drop(seats);
    ExitCode::from(code)
}

// The number to exit with. Both arguments are the runtime: as `handle` it starts workers' threads and waits for them, which is all that a run may ask
// of it, and as `rt` it opens files and streams.
fn code<H: Threads + Wait + Sync>(handle: &H, rt: &HostRuntime) -> u8 {
    let words = words(rt);
    let texts = Host { rt };
    let mut streams = Streams {
        output: rt.stdout(),
        errors: rt.stderr(),
    };
    exit_code(handle, rt.alloc(), words, &texts, &mut streams)
}

fn words(rt: &HostRuntime) -> io::Result<Vec<String>> {
    let words = env::args(rt)?.collect(rt.alloc())?;
    Ok(words)
}
