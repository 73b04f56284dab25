//! Programs from their texts to their tables, and recorded schedules from their texts and back.

use super::programs::{FIBONACCI, FIBONACCI_CANONICAL};
use super::{page, tell_refused};
use crate::equal::equal;
use cilk_check::{CheckFault, Checked, check};
use cilk_commands::{Failure, ready_of};
use cilk_debug::{Choices, Log, LogFault, read_log, write_log};
use cilk_lex::{LexFault, Token, tokens};
use cilk_load::{LoadFault, Loaded, load};
use cilk_parse::{ReadFault, read};
use cilk_tree::canonical;
use std::alloc::Global;
use std::process::Abort;

// Two runs by two workers of a program whose `main` spawns one child: with a steal, and without one. The last is the first again, with a digest.
const LOGS: &[&str] = &[
    "cilklog 1\nworkers 2\n1 step\n2 steal 1\n2 step\n1 step\n1 step\n1 step\n1 step\nend 7\n",
    "cilklog 1\nworkers 2\n1 step\n1 step\n1 step\n1 pop\n1 step\n1 step\nend 6\n",
    "cilklog 2\nworkers 2\nprogram ba7816bf8f01cfea414140de5dae2223b00361a396177a9cb410ff61f20015ad\n\
     1 step\n2 steal 1\n2 step\n1 step 4\nend 7\n",
];

fn checked(rt: &(impl Abort + Print), alloc: Global, text: &str) -> Checked {
    let program = again!(rt; read(alloc, text), ReadFault::Memory);
    match check(alloc, program) {
        Ok(checked) => checked,
        Err(fault) => {
            equal(rt, fault, CheckFault::Memory);
            tell_refused(rt, "check()");
            let program = read(alloc, text).ok().expect(rt, "a program");
            check(alloc, program).ok().expect(rt, "a checked program")
        }
    }
}

pub fn loaded(rt: &(impl Abort + Print), alloc: Global, text: &str) -> Loaded {
    again!(rt; load(alloc, checked(rt, alloc, text)), LoadFault::Memory)
}

pub fn log_of(rt: &(impl Abort + Print), alloc: Global, text: &str) -> Log {
    again!(rt; read_log(alloc, text.as_bytes()), LogFault::Memory)
}

fn token_list(rt: &(impl Abort + Print), alloc: Global, text: &str) -> Vec<Token> {
    again!(rt; tokens(alloc, text), LexFault::Memory)
}

fn printed(rt: &(impl Abort + Print), alloc: Global, checked: &Checked) -> String {
    again!(rt; canonical(alloc, checked.program()), _)
}

fn ready(rt: &(impl Abort + Print), alloc: Global, text: &str) -> Loaded {
    again!(rt; ready_of(alloc, text.as_bytes()), Failure::Memory)
}

fn copy_of(rt: &(impl Abort + Print), loaded: &Loaded) -> Loaded {
    again!(rt; loaded.copy(), _)
}

fn text_of(rt: &(impl Abort + Print), loaded: &Loaded) -> String {
    again!(rt; loaded.text(), _)
}

fn count_of(rt: &(impl Abort + Print), alloc: Global, text: &str) -> u32 {
    loaded(rt, alloc, text).count()
}

#[test]
fn a_text_has_its_tables(rt: HostRuntime) {
    let list = token_list(&rt, rt.alloc(), FIBONACCI);
    equal(&rt, list.len(), 95);
    let checked = checked(&rt, rt.alloc(), FIBONACCI);
    let text = printed(&rt, rt.alloc(), &checked);
    equal(&rt, text.as_str(), FIBONACCI_CANONICAL);
    equal(&rt, count_of(&rt, rt.alloc(), FIBONACCI), 15);
    let ready = ready(&rt, rt.alloc(), FIBONACCI);
    let copy = copy_of(&rt, &ready);
    equal(&rt, copy.count(), 15);
    equal(&rt, text_of(&rt, &copy).as_str(), FIBONACCI_CANONICAL);
}

fn told(rt: &(impl Abort + Print), alloc: Global, choices: &Choices) -> String {
    let mut text = page(rt, alloc);
    write!(text, "{choices:?}").expect(rt, "room");
    text
}

// The same choices, put one behind the other.
fn put_again(rt: &(impl Abort + Print), alloc: Global, all: &Choices) -> Choices {
    let mut choices = Choices::new(alloc);
    for choice in all.as_slice() {
        let before = told(rt, alloc, &choices);
        again!(
            rt;
            choices.push(*choice),
            _,
            equal(rt, told(rt, alloc, &choices).as_str(), before.as_str())
        );
    }
    choices
}

fn written(rt: &(impl Abort + Print), alloc: Global, log: &Log) -> Vec<u8> {
    again!(rt; write_log(alloc, log), LogFault::Memory)
}

#[test]
fn a_log_is_read_and_written(rt: HostRuntime) {
    for text in LOGS {
        let log = log_of(&rt, rt.alloc(), text);
        let log = Log {
            program: log.program,
            workers: log.workers,
            choices: put_again(&rt, rt.alloc(), &log.choices),
        };
        let written = written(&rt, rt.alloc(), &log);
        equal(&rt, written.as_slice(), text.as_bytes());
    }
}
