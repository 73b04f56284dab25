//! Sessions of a debugger, asked line by line, and at once.

use super::debuggers::{opened, told};
use super::programs::PRODUCT;
use super::tell_refused;
use crate::equal::equal;
use cilk_debug::{Debugger, SessionFault};
use std::alloc::Global;
use std::process::Abort;

const RECORDED: &str = "cilklog 1\nworkers 1\n1 step\n1 step\nend 2\n";

// The lines of two sessions, each with its answer.
const ASKED: &[(&str, &str)] = &[
    ("back", "B3 AtStart\n"),
    ("step", "position 1 of 2: running\nworker 1 at / line 3\n"),
    ("frame /", "main line 3\n    x = 2\n"),
    ("go 2", "position 2 of 2: finished 42\nworker 1 idle\n"),
    ("step", "B2 AtEnd\n"),
    ("frame /", "B5 NoInstance\n"),
    ("go 3", "B6 OutOfRange\n"),
    ("break 4", "B4 NoStatement\n"),
    ("break 2", "ok\n"),
    ("go 0", "position 0 of 2: running\nworker 1 at / line 2\n"),
    ("next", "position 2 of 2: finished 42\nworker 1 idle\n"),
    (
        "list",
        "     1         cilk int main(void) {\n     2      1      int x = 2;\n     3      2      return x * 21;\n     4      3  }\n",
    ),
    ("quit", ""),
    ("prev", "position 0 of 2: running\nworker 1 at / line 2\n"),
    ("break 1", "ok\n"),
    ("go 2", "position 2 of 2: finished 42\nworker 1 idle\n"),
    ("prev", "position 1 of 2: running\nworker 1 at / line 3\n"),
    ("clear 1", "ok\n"),
    ("prev", "position 0 of 2: running\nworker 1 at / line 2\n"),
];

fn session(
    rt: &(impl Abort + Print),
    debugger: &mut Debugger,
    line: &str,
    out: &mut Vec<u8>,
) -> bool {
    let mut reader = line.as_bytes();
    match debugger.session(&mut reader, out) {
        Ok(()) => true,
        Err(fault) => {
            tell_refused(rt, "debugger.session()");
            equal(rt, fault, SessionFault::Memory);
            false
        }
    }
}

// Room for all answers, so that writing them takes no memory.
fn room(rt: &(impl Abort + Print), alloc: Global) -> Vec<u8> {
    again!(rt; Vec::with_capacity(alloc, 4096), _)
}

// Asks a line, once more where memory was refused. A move that was made stays made, and then its answer alone is asked for.
fn asks(
    rt: &(impl Abort + Print),
    alloc: Global,
    debugger: &mut Debugger,
    line: &str,
    wanted: &str,
) {
    let before = told(rt, alloc, debugger);
    let at = debugger.position();
    let mut out = room(rt, alloc);
    if !session(rt, debugger, line, &mut out) {
        assert!(rt; out.is_empty());
        let mut rest = "where";
        if debugger.position() == at {
            equal(rt, told(rt, alloc, debugger).as_str(), before.as_str());
            rest = line;
        }
        assert!(rt; session(rt, debugger, rest, &mut out));
    }
    assert_eq!(rt; out.as_slice(), wanted.as_bytes(), "{line}");
}

#[test]
fn a_session_answers(rt: HostRuntime) {
    let mut debugger = opened(&rt, rt.alloc(), PRODUCT, RECORDED);
    for (line, wanted) in ASKED {
        asks(&rt, rt.alloc(), &mut debugger, line, wanted);
    }
    equal(&rt, debugger.position(), 0);
}

// What is asked at once. Each line, asked again, has the same answer.
const AT_ONCE: &str = "go 2\ndeques\ngo 1\nframe /\nbreak 1\ntree\ngo 0\noutput\n";

// Its lines, each with its answer, and with where the debugger stands then.
const LINES: &[(&str, &str, u64)] = &[
    ("go 2", "position 2 of 2: finished 42\nworker 1 idle\n", 2),
    ("deques", "1: hand - deque\n", 2),
    (
        "go 1",
        "position 1 of 2: running\nworker 1 at / line 3\n",
        1,
    ),
    ("frame /", "main line 3\n    x = 2\n", 1),
    ("break 1", "ok\n", 1),
    ("tree", "/ main hand 1 line 3\n", 1),
    (
        "go 0",
        "position 0 of 2: running\nworker 1 at / line 2\n",
        0,
    ),
    ("output", "0 bytes\n\n", 0),
];

// How many of these lines have their answers in what was written. That is theirs, and nothing else, and the debugger stands where the last of them left it,
// or where the next one leads.
fn answered(rt: &(impl Abort + Print), debugger: &Debugger, out: &[u8]) -> usize {
    let mut at = 0;
    let mut rest = out;
    for (count, (_, answer, position)) in LINES.iter().enumerate() {
        match rest.strip_prefix(answer.as_bytes()) {
            Some(behind) => {
                rest = behind;
                at = *position;
            }
            None => {
                assert!(rt; rest.is_empty());
                assert!(rt; debugger.position() == at || debugger.position() == *position);
                return count;
            }
        }
    }
    LINES.len()
}

#[test]
fn a_session_goes_on(rt: HostRuntime) {
    let mut debugger = opened(&rt, rt.alloc(), PRODUCT, RECORDED);
    let mut out = room(&rt, rt.alloc());
    if !session(&rt, &mut debugger, AT_ONCE, &mut out) {
        let count = answered(&rt, &debugger, out.as_slice());
        for (line, _, _) in LINES.iter().skip(count) {
            assert!(rt; session(&rt, &mut debugger, line, &mut out));
        }
    }
    equal(&rt, answered(&rt, &debugger, out.as_slice()), LINES.len());
}
