//! Sessions of a debugger over readers and writers that work, end, or fail.

use crate::debugging;
use crate::equal::equal;
use cilk_debug::{Debugger, InputFault, SessionFault};
use std::alloc::Global;
use std::io;
use std::io::{ErrorKind, Read, Write};
use std::process::Abort;
use std::sync::atomic::{AtomicU64, Ordering};

const PROGRAM: &str = "cilk int main(void) { int x = 2; return x * 21; }";

const RECORDED: &str = "cilklog 1\nworkers 1\n1 step\n1 step\nend 2\n";

const FIRST: &str =
    "back\nstep\nframe /\ngo 2\nstep\nframe /\ngo 3\nbreak 4\nbreak 2\ngo 0\nnext\nlist\nquit\n";

const FIRST_ANSWERS: &str =
    "B3 AtStart\nposition 1 of 2: running\nworker 1 at / line 3\nmain line 3\n    x = 2\n\
     position 2 of 2: finished 42\nworker 1 idle\nB2 AtEnd\nB5 NoInstance\nB6 OutOfRange\n\
     B4 NoStatement\nok\nposition 0 of 2: running\nworker 1 at / line 2\nposition 2 of 2: finished 42\n\
     worker 1 idle\n     1         cilk int main(void) {\n     2      1      int x = 2;\n     3      2      return x * 21;\n     4      3  }\n";

const SECOND: &str = "prev\nbreak 1\ngo 2\nprev\nclear 1\nprev";

const SECOND_ANSWERS: &str =
    "position 0 of 2: running\nworker 1 at / line 2\nok\nposition 2 of 2: finished 42\n\
     worker 1 idle\nposition 1 of 2: running\nworker 1 at / line 3\nok\nposition 0 of 2: running\n\
     worker 1 at / line 2\n";

// Steps to the end and back, each of which has an answer of two lines.
const WALK: &str = "step\nstep\nback\nback\n";

fn debugger(rt: &impl Abort, alloc: Global) -> Debugger {
    debugging::debugger(rt, alloc, PROGRAM, RECORDED)
}

// What a session writes that ends well.
fn answers(rt: &impl Abort, alloc: Global, debugger: &mut Debugger, input: &[u8]) -> Vec<u8> {
    let mut reader = input;
    let mut out = Vec::new(alloc);
    let ended = debugger.session(&mut reader, &mut out);
    equal(rt, ended, Ok(()));
    out
}

#[test]
fn worked_sessions_come_out(rt: HostRuntime) {
    let mut debugger = debugger(&rt, rt.alloc());
    let first = answers(&rt, rt.alloc(), &mut debugger, FIRST.as_bytes());
    equal(&rt, first.as_slice(), FIRST_ANSWERS.as_bytes());
    equal(&rt, debugger.position(), 2);
    let second = answers(&rt, rt.alloc(), &mut debugger, SECOND.as_bytes());
    equal(&rt, second.as_slice(), SECOND_ANSWERS.as_bytes());
    equal(&rt, debugger.position(), 0);
}

// There may be 1,000,000 lines, and a line may have 4,096 bytes.
#[test]
fn input_that_is_too_long(rt: HostRuntime) {
    let mut debugger = debugger(&rt, rt.alloc());
    let mut lines = Vec::new(rt.alloc());
    lines.resize(1_000_000, b'\n').expect(&rt, "memory");
    let told = answers(&rt, rt.alloc(), &mut debugger, &lines);
    assert!(rt; told.is_empty());
    lines.push(b'x').expect(&rt, "memory");
    breaks_off(&rt, rt.alloc(), &lines, InputFault::TooManyLines);
    let mut line = Vec::new(rt.alloc());
    line.resize(4097, b'x').expect(&rt, "memory");
    line.push(b'\n').expect(&rt, "memory");
    breaks_off(&rt, rt.alloc(), &line, InputFault::LineTooLong);
}

// A session on this input ends by the fault, and answers nothing.
fn breaks_off(rt: &impl Abort, alloc: Global, input: &[u8], fault: InputFault) {
    let mut debugger = debugger(rt, alloc);
    let mut reader = input;
    let mut out = Vec::new(alloc);
    let ended = debugger.session(&mut reader, &mut out);
    equal(rt, ended, Err(SessionFault::Read(fault)));
    assert!(rt; out.is_empty());
}

// Gives one byte at each call but the one numbered `fails_at`, from 1, which is interrupted.
#[derive(Drop)]
struct Broken<'a> {
    left: &'a [u8],
    calls: usize,
    fails_at: usize,
}

impl Read for Broken<'_> {
    fn read(&mut self, buf: &mut [u8]) -> io::Result<usize> {
        self.calls = self.calls.saturating_add(1);
        if self.calls == self.fails_at {
            return Err(io::Error::from(ErrorKind::Interrupted));
        }
        let count = buf.len().min(1);
        self.left.read(&mut buf[..count])
    }
}

// How many newlines stand among the first bytes.
fn newlines_in(bytes: &[u8], count: usize) -> usize {
    bytes
        .iter()
        .take(count)
        .filter(|byte| **byte == b'\n')
        .count()
}

#[test]
fn each_read_fails_once(rt: HostRuntime) {
    for given in 0..21usize {
        let mut debugger = debugger(&rt, rt.alloc());
        let mut reader = Broken {
            left: WALK.as_bytes(),
            calls: 0,
            fails_at: given + 1,
        };
        let mut out = Vec::new(rt.alloc());
        let ended = debugger.session(&mut reader, &mut out);
        equal(&rt, ended, Err(SessionFault::Read(InputFault::Device)));
        let lines = newlines_in(WALK.as_bytes(), given);
        let stands = [0, 1, 2, 1, 0];
        assert!(rt; lines < 5);
        equal(&rt, debugger.position(), stands[lines]);
        equal(&rt, newlines_in(&out, out.len()), 2 * lines);
    }
}

#[test]
fn nothing_is_asked_for_behind_quit(rt: HostRuntime) {
    let mut debugger = debugger(&rt, rt.alloc());
    // The call behind the last byte of `quit` fails.
    let mut reader = Broken {
        left: "step\nquit\nstep\n".as_bytes(),
        calls: 0,
        fails_at: 11,
    };
    let mut out = Vec::new(rt.alloc());
    let ended = debugger.session(&mut reader, &mut out);
    equal(&rt, ended, Ok(()));
    equal(&rt, reader.calls, 10);
    equal(&rt, debugger.position(), 1);
}

// Gives the lines of `WALK`, one at each call, and counts the calls before which not every line that was given has its
// answer of two lines.
#[derive(Drop)]
struct Asking<'a> {
    left: &'a [u8],
    lines: u64,
    answered: &'a AtomicU64,
    late: u64,
}

impl Read for Asking<'_> {
    fn read(&mut self, buf: &mut [u8]) -> io::Result<usize> {
        if self.answered.load(Ordering::SeqCst) != self.lines.saturating_mul(2) {
            self.late = self.late.saturating_add(1);
        }
        self.lines = self.lines.saturating_add(1);
        let count = buf.len().min(5);
        self.left.read(&mut buf[..count])
    }
}

// Takes all, and tells how many newlines were flushed.
#[derive(Drop)]
struct Answering<'a> {
    held: u64,
    answered: &'a AtomicU64,
}

impl Write for Answering<'_> {
    fn write(&mut self, buf: &[u8]) -> io::Result<usize> {
        self.held = self.held.saturating_add(newlines_in(buf, buf.len()) as u64);
        Ok(buf.len())
    }

    fn flush(&mut self) -> io::Result<()> {
        self.answered.store(self.held, Ordering::SeqCst);
        Ok(())
    }
}

#[test]
fn each_answer_is_flushed_before_the_next_line_is_asked_for(rt: HostRuntime) {
    let mut debugger = debugger(&rt, rt.alloc());
    let answered = AtomicU64::new(0);
    let mut reader = Asking {
        left: WALK.as_bytes(),
        lines: 0,
        answered: &answered,
        late: 0,
    };
    let mut writer = Answering {
        held: 0,
        answered: &answered,
    };
    let ended = debugger.session(&mut reader, &mut writer);
    equal(&rt, ended, Ok(()));
    equal(&rt, reader.late, 0);
    equal(&rt, answered.load(Ordering::SeqCst), 8);
}

// Takes `room` bytes, one at each call, and then fails.
#[derive(Drop)]
struct Full {
    room: usize,
}

impl Write for Full {
    fn write(&mut self, buf: &[u8]) -> io::Result<usize> {
        if self.room == 0 {
            return Err(io::Error::from(ErrorKind::Interrupted));
        }
        let count = buf.len().min(1);
        self.room -= count;
        Ok(count)
    }

    fn flush(&mut self) -> io::Result<()> {
        Ok(())
    }
}

#[test]
fn each_write_fails_once(rt: HostRuntime) {
    let mut plain = debugger(&rt, rt.alloc());
    let whole = answers(&rt, rt.alloc(), &mut plain, WALK.as_bytes());
    for room in 0..whole.len() {
        let mut debugger = debugger(&rt, rt.alloc());
        let mut reader = WALK.as_bytes();
        let mut writer = Full { room };
        let ended = debugger.session(&mut reader, &mut writer);
        equal(&rt, ended, Err(SessionFault::Write));
        let newlines = newlines_in(&whole, room);
        let stands = [1, 2, 1, 0];
        assert!(rt; newlines < 8);
        equal(&rt, debugger.position(), stands[newlines / 2]);
    }
}
