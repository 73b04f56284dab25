//! What recorded schedules are written as, and what bytes are read as.

use crate::equal::equal;
use cilk_log::{
    Act, Choice, Choices, Log, LogFault, one_list_of_stretches, one_text_each, program_of,
    read_log, write_log,
};
use std::alloc::Global;
use std::process::Abort;

const RECORDED: &str = "cilklog 1\nworkers 2\n1 step\n2 steal 1\n2 step\n1 step\n1 pop\nend 5\n";

// The digits are those of the example of FIPS 180-4.
const NAMED: &str = "cilklog 2\nworkers 2\n\
    program ba7816bf8f01cfea414140de5dae2223b00361a396177a9cb410ff61f20015ad\n\
    1 step\n2 steal 1\n2 step\n1 step 4\nend 7\n";

fn written(rt: &impl Abort, alloc: Global, log: &Log) -> Vec<u8> {
    write_log(alloc, log).expect(rt, "memory")
}

#[test]
fn choices_are_written_line_by_line(rt: HostRuntime) {
    let mut choices = Choices::new(rt.alloc());
    for (worker, act) in [
        (1, Act::Step),
        (2, Act::Steal(1)),
        (2, Act::Step),
        (1, Act::Step),
        (1, Act::Pop),
    ] {
        choices.push(Choice { worker, act }).expect(&rt, "memory");
    }
    let log = Log {
        program: None,
        workers: 2,
        choices,
    };
    let text = written(&rt, rt.alloc(), &log);
    equal(&rt, text.as_slice(), RECORDED.as_bytes());
}

#[test]
fn steps_of_one_worker_are_written_in_one_line(rt: HostRuntime) {
    let mut choices = Choices::new(rt.alloc());
    for (worker, act) in [
        (1, Act::Step),
        (2, Act::Steal(1)),
        (2, Act::Step),
        (1, Act::Step),
        (1, Act::Step),
        (1, Act::Step),
        (1, Act::Step),
    ] {
        choices.push(Choice { worker, act }).expect(&rt, "memory");
    }
    let log = Log {
        program: Some(program_of("abc")),
        workers: 2,
        choices,
    };
    let text = written(&rt, rt.alloc(), &log);
    equal(&rt, text.as_slice(), NAMED.as_bytes());
    assert!(rt; log.is_of("abc"));
    assert!(rt; !log.is_of("abc\n"));
    one_list_of_stretches();
}

#[test]
fn what_is_read_is_written_again(rt: HostRuntime) {
    for text in [
        RECORDED,
        NAMED,
        "cilklog 1\nworkers 1\n1 pop\nend 1\n",
        "cilklog 1\nworkers 1\n0 step\nend 1\n",
        "cilklog 1\nworkers 1\n1 steal 1\nend 1\n",
        "cilklog 1\nworkers 255\nend 0\n",
    ] {
        let log = read_log(rt.alloc(), text.as_bytes()).expect(&rt, text);
        let again = written(&rt, rt.alloc(), &log);
        equal(&rt, again.as_slice(), text.as_bytes());
    }
}

#[test]
fn first_fault_from_the_top(rt: HostRuntime) {
    for (text, fault) in [
        ("", "G3 Truncated"),
        ("cilklog 9", "G3 Truncated"),
        ("cilklog 9\n", "G1 Version"),
        ("cilklog 1\nworkers 2\n1 step", "G3 Truncated"),
        ("cilklog 1\nworkers 256\nend 0\n", "G2 Line 2"),
        ("cilklog 1\nworkers 2\n01 step\nend 1\n", "G2 Line 3"),
        (
            "cilklog 1\nworkers 2\nend 18446744073709551616\n",
            "G2 Line 3",
        ),
        ("cilklog 1\nworkers 2\n1 step\nend 1\n\n", "G2 Line 5"),
        (
            "cilklog 1\nworkers 1\n1 step\n1 step\n1 step\n1 step\n1 step\nend 4\n",
            "G4 Count",
        ),
        ("cilklog 2\n", "G3 Truncated"),
        ("cilklog 2\nworkers 2\n1 step\nend 1\n", "G2 Line 3"),
        ("cilklog 1\nworkers 2\n1 step 2\nend 2\n", "G2 Line 3"),
    ] {
        let told = match read_log(rt.alloc(), text.as_bytes()) {
            Err(fault) => format!(in rt.alloc(); "{fault}").expect(&rt, "memory"),
            Ok(_) => String::new(rt.alloc()),
        };
        equal(&rt, told.as_str(), fault);
    }
}

#[test]
fn choices_are_a_list(rt: HostRuntime) {
    let log = read_log(rt.alloc(), RECORDED.as_bytes()).expect(&rt, "a recorded schedule");
    let second = Choice {
        worker: 2,
        act: Act::Steal(1),
    };
    equal(&rt, log.workers, 2);
    equal(&rt, log.choices.len(), 5);
    equal(&rt, log.choices.get(1), Some(second));
    equal(&rt, log.choices.get(5), None);
    one_text_each();
}

// Whether the bytes are refused for what they are, or are the text of what is read.
fn has_an_answer(rt: &impl Abort, alloc: Global, bytes: &[u8]) -> bool {
    match read_log(alloc, bytes) {
        Err(fault) => fault != LogFault::Memory,
        Ok(log) => written(rt, alloc, &log).as_slice() == bytes,
    }
}

#[test]
fn every_broken_text_has_an_answer(rt: HostRuntime) {
    for text in [RECORDED.as_bytes(), NAMED.as_bytes()] {
        for end in 0..text.len() {
            for byte in [0, 34, 255] {
                let mut broken = Vec::from_slice(rt.alloc(), text).expect(&rt, "memory");
                broken[end] = byte;
                assert!(rt; has_an_answer(&rt, rt.alloc(), &broken));
            }
            assert!(rt; has_an_answer(&rt, rt.alloc(), &text[..end]));
        }
    }
}
