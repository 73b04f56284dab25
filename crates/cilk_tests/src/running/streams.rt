//! Readers and writers that break.

use crate::equal::equal;
use cilk_commands::print_text;
use std::alloc::Global;
use std::io;
use std::io::{ErrorKind, Read, Write};
use std::process::Abort;

const SAMPLE: &str = "cilk int main(){int a=2,b;b=a*(3+4)-5;return b;}";

const CANONICAL: &str =
    "cilk int main(void) {\n    int a = 2;\n    int b;\n    b = (a * (3 + 4)) - 5;\n    return b;\n}\n";

// Gives a part of the sample at each call but the one numbered `fails_at`, from 1.
#[derive(Drop)]
struct BrokenReader {
    calls: usize,
    fails_at: usize,
}

impl Read for BrokenReader {
    fn read(&mut self, buf: &mut [u8]) -> io::Result<usize> {
        self.calls = self.calls.saturating_add(1);
        if self.calls == self.fails_at {
            return Err(io::Error::from(ErrorKind::BrokenPipe));
        }
        (&SAMPLE.as_bytes()[..9]).read(buf)
    }
}

// Takes `room` bytes, and then fails; or fails at a flush.
#[derive(Drop)]
struct BrokenWriter {
    held: Vec<u8>,
    room: usize,
}

impl BrokenWriter {
    fn new(alloc: Global, room: usize) -> BrokenWriter {
        BrokenWriter {
            held: Vec::new(alloc),
            room,
        }
    }
}

impl Write for BrokenWriter {
    fn write(&mut self, buf: &[u8]) -> io::Result<usize> {
        if self.room == 0 {
            return Err(io::Error::from(ErrorKind::StorageFull));
        }
        let count = buf.len().min(self.room);
        self.held.extend_from_slice(&buf[..count])?;
        self.room -= count;
        Ok(count)
    }

    fn flush(&mut self) -> io::Result<()> {
        Err(io::Error::from(ErrorKind::StorageFull))
    }
}

// The status, the output and the errors are those that are wanted.
fn has_written(rt: &impl Abort, status: (u8, u8), out: (&[u8], &[u8]), err: (&[u8], &[u8])) {
    equal(rt, status.0, status.1);
    equal(rt, out.0, out.1);
    equal(rt, err.0, err.1);
}

#[test]
fn stops_at_a_broken_reader(rt: HostRuntime) {
    for fails_at in 1..4 {
        let mut out = Vec::new(rt.alloc());
        let mut err = Vec::new(rt.alloc());
        let mut reader = BrokenReader { calls: 0, fails_at };
        let status = print_text(rt.alloc(), "a.cilk", false, &mut reader, &mut out, &mut err);
        let told = b"cilk: cannot read a.cilk\n".as_slice();
        has_written(&rt, (status.code(), 7), (&out, &[]), (&err, told));
    }
}

#[test]
fn stops_at_a_broken_writer(rt: HostRuntime) {
    for room in [0, 1, CANONICAL.len(), 999] {
        let mut text = SAMPLE.as_bytes();
        let mut out = BrokenWriter::new(rt.alloc(), room);
        let mut err = Vec::new(rt.alloc());
        let status = print_text(rt.alloc(), "-", false, &mut text, &mut out, &mut err);
        let count = room.min(CANONICAL.len());
        let taken = &CANONICAL.as_bytes()[..count];
        let told = b"cilk: cannot write output\n".as_slice();
        has_written(&rt, (status.code(), 7), (&out.held, taken), (&err, told));
    }
}

#[test]
fn loses_a_line_that_cannot_be_written(rt: HostRuntime) {
    let mut text = b"\xff".as_slice();
    let mut out = Vec::new(rt.alloc());
    let mut err = BrokenWriter::new(rt.alloc(), 3);
    let status = print_text(rt.alloc(), "-", false, &mut text, &mut out, &mut err);
    let told = b"-: ".as_slice();
    has_written(&rt, (status.code(), 1), (&out, &[]), (&err.held, told));
}
