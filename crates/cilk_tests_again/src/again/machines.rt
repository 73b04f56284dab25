//! Machines with and without records make the same choices, are taken back, and are made of images.

ghost use Rattle.std.specs.Prelude.{◌≡◌};

use super::programs::{
    ADDING, ALL, COUNTING, DIVIDING, LOCKED_TWICE, LOOKING, NEVER_SET, PASSING, PRODUCT,
};
use super::script::choice_of;
use super::texts::loaded;
use super::{page, pages, tell_refused};
use crate::equal::equal;
use cilk_debug::{ViewFault, What};
use cilk_load::{Loaded, Memory};
use cilk_run::{Choice, End, Event, Machine, MachineFault, Refusal, ending};
use cilk_spawn::{Fate, Path};
use std::alloc::Global;
use std::process::Abort;

// Each program, its workers, the choices, and the closing text.
const ROWS: &[(&str, u8, &str, &str)] = &[
    (
        COUNTING,
        2,
        "1s 1s 1s 1s 1p 1s 1s 1s 1s 1p 1s 1s",
        "main returned 2\n",
    ),
    (
        COUNTING,
        2,
        "1s 2t1 2s 1s 2s 1s 2s 1s 2s 2p 2s 2s",
        "main returned 1\n",
    ),
    (
        LOOKING,
        2,
        "1s 1s 2t1 2s 2s 1s 1s 1s 1t2 1s 1s 1s 2s 1s 1s 1s",
        "2\n1\nmain returned 1\n",
    ),
    (
        ADDING,
        2,
        "1s 1s 2t1 2s 1s 1s 1s 2s 1s 2s 2s 2s 2p 2s 2s",
        "main returned 2\n",
    ),
    (
        LOCKED_TWICE,
        2,
        "1s 1s 1s",
        "trapped Lock in / at 3, line 5\n",
    ),
    (NEVER_SET, 2, "1s", "trapped Lock in / at 1, line 3\n"),
    (
        PASSING,
        2,
        "1s 1s 1s 1p 1s",
        "trapped Overflow in / at 4, line 6\n",
    ),
    (
        DIVIDING,
        2,
        "1s 1s",
        "trapped ZeroDivide in /1 at 1, line 2\n",
    ),
    (PRODUCT, 1, "1s 1s", "main returned 42\n"),
    (
        ALL,
        1,
        "1s 1s 1s 1s 1s 1s 1s 1s 1s 1p 1s 1s 1s 1s 1s 1s 1s 1s 1s 1s 1s 1s 1p 1s 1s 1s 1s 1s 1s",
        "1\n2\nmain returned 2\n",
    ),
];

fn view(rt: &(impl Abort + Print), machine: &Machine, what: &What) -> String {
    again!(rt; machine.text(what), ViewFault::Memory(_))
}

fn frame_at(rt: &(impl Abort + Print), alloc: Global, path: &[u32]) -> What {
    let path = again!(rt; Vec::from_slice(alloc, path), _);
    What::Frame(Path::new(path))
}

// What is seen of a machine, but for its records.
pub fn seen(rt: &(impl Abort + Print), alloc: Global, machine: &Machine) -> String {
    let mut text = page(rt, alloc);
    put_standing(rt, &mut text, machine);
    for what in [
        What::Where,
        What::Tree,
        What::Globals,
        What::Deques,
        What::Output,
    ] {
        let view = view(rt, machine, &what);
        write!(text, "{view}").expect(rt, "room");
    }
    for path in [[].as_slice(), [1].as_slice(), [2].as_slice()] {
        put_frame(rt, alloc, &mut text, machine, path);
    }
    text
}

// What it tells without memory.
fn put_standing(rt: &(impl Abort + Print), text: &mut String, machine: &Machine) {
    let choices = machine.choices();
    let outcome = machine.outcome();
    let output = machine.output();
    let is_stuck = machine.is_stuck();
    let has_idle = machine.has_idle();
    let digest = machine.digest(machine.mixed());
    let count = machine.global("g", 0);
    write!(
        text,
        "{choices} {outcome:?} {output:?} {is_stuck} {has_idle} {digest} {count:?}\n"
    )
    .expect(rt, "room");
}

// What became of an instance, and its frame, where one lives there.
fn put_frame(
    rt: &(impl Abort + Print),
    alloc: Global,
    text: &mut String,
    machine: &Machine,
    path: &[u32],
) {
    let fate = machine.fate(path);
    write!(text, "{fate:?}\n").expect(rt, "room");
    if fate == Some(Fate::Live) {
        let what = frame_at(rt, alloc, path);
        let view = view(rt, machine, &what);
        write!(text, "{view}").expect(rt, "room");
    }
}

fn end_of(rt: &(impl Abort + Print), machine: &Machine) -> End {
    again!(rt; machine.end_now(), _)
}

pub fn closing(
    rt: &(impl Abort + Print),
    alloc: Global,
    output: &[u8],
    end: &End,
    choices: u64,
) -> Vec<u8> {
    again!(rt; ending(alloc, output, end, choices), _)
}

// Asserts the closing text.
pub fn closes(rt: &(impl Abort + Print), alloc: Global, machine: &Machine, wanted: &str) {
    let end = end_of(rt, machine);
    let text = closing(rt, alloc, machine.output(), &end, machine.choices());
    equal(rt, text.as_slice(), wanted.as_bytes());
}

fn is_private(rt: &(impl Abort + Print), machine: &Machine, worker: u8) -> bool {
    again!(rt; machine.is_private(worker), _)
}

// Makes a choice of a machine of which this is seen.
fn made(
    rt: &(impl Abort + Print),
    alloc: Global,
    machine: &mut Machine,
    choice: Choice,
    before: &str,
) -> Event {
    let records = machine.records();
    assert!(rt; machine.choices() < 1000);
    again!(rt; machine.make(choice), Refusal::Memory, {
        equal(rt, seen(rt, alloc, machine).as_str(), before);
        equal(rt, machine.records(), records);
    })
}

// The same, and tells what came of it.
fn makes(
    rt: &(impl Abort + Print),
    alloc: Global,
    machine: &mut Machine,
    choice: Choice,
    before: &str,
) -> String {
    let private = is_private(rt, machine, choice.worker);
    let event = made(rt, alloc, machine, choice, before);
    let mut text = page(rt, alloc);
    write!(text, "{private} {event:?}").expect(rt, "room");
    text
}

// Takes the last choice of a machine back of which this is seen.
fn undoes(rt: &(impl Abort + Print), alloc: Global, machine: &mut Machine, before: &str) -> bool {
    let records = machine.records();
    again!(rt; machine.undo(), _, {
        equal(rt, seen(rt, alloc, machine).as_str(), before);
        equal(rt, machine.records(), records);
    })
}

// Takes all choices back, before which this was seen.
fn goes_back(rt: &(impl Abort + Print), alloc: Global, machine: &mut Machine, before: &[String]) {
    for wanted in before.iter().rev() {
        let now = seen(rt, alloc, machine);
        assert!(rt; undoes(rt, alloc, machine, now.as_str()));
        equal(rt, seen(rt, alloc, machine).as_str(), wanted.as_str());
    }
    equal(rt, machine.records(), 0);
}

fn program_of(rt: &(impl Abort + Print), machine: &Machine) -> Loaded
    ensures { result ≡ machine.now.program }
{
    again!(rt; machine.loaded().copy(), _)
}

// The same machine, made of its image.
fn copied(rt: &(impl Abort + Print), alloc: Global, machine: &Machine) -> Result<Machine, Memory> {
    let loaded = program_of(rt, machine);
    let image = match machine.image() {
        Ok(image) => image,
        Err(memory) => {
            drop(loaded);
            tell_refused(rt, "machine.image()");
            return Err(memory);
        }
    };
    let copy = Machine::restore(alloc, &image, loaded);
    if copy.is_err() {
        tell_refused(rt, "Machine::restore()");
    }
    copy
}

fn copy_of(rt: &(impl Abort + Print), alloc: Global, machine: &Machine) -> Machine {
    match copied(rt, alloc, machine) {
        Ok(copy) => copy,
        Err(_) => copied(rt, alloc, machine).ok().expect(rt, "a machine"),
    }
}

fn has_checkpoint(rt: &(impl Abort + Print), machine: &Machine) {
    let checkpoint = again!(rt; machine.checkpoint(), _);
    equal(rt, checkpoint.choices(), machine.choices());
}

// A machine that is made of an image tells the same.
fn is_made_anew(rt: &(impl Abort + Print), alloc: Global, machine: &Machine) {
    let whole = seen(rt, alloc, machine);
    let copy = copy_of(rt, alloc, machine);
    equal(rt, seen(rt, alloc, &copy).as_str(), whole.as_str());
    has_checkpoint(rt, machine);
}

fn opened(rt: &(impl Abort + Print), alloc: Global, text: &str, workers: u8) -> Machine {
    again!(rt; Machine::new(alloc, loaded(rt, alloc, text), workers), MachineFault::Memory(_))
}

fn opened_with_undo(rt: &(impl Abort + Print), alloc: Global, text: &str, workers: u8) -> Machine {
    again!(rt; Machine::with_undo(alloc, loaded(rt, alloc, text), workers), MachineFault::Memory(_))
}

#[test]
fn machines_make_choices(rt: HostRuntime) {
    for (text, workers, script, closing) in ROWS {
        let mut plain = opened(&rt, rt.alloc(), text, *workers);
        let mut keeping = opened_with_undo(&rt, rt.alloc(), text, *workers);
        let mut before = pages(&rt, rt.alloc(), 100);
        for word in script.split_whitespace() {
            let choice = choice_of(&rt, word);
            let now = seen(&rt, rt.alloc(), &plain);
            let event = makes(&rt, rt.alloc(), &mut plain, choice, now.as_str());
            let other = makes(&rt, rt.alloc(), &mut keeping, choice, now.as_str());
            equal(&rt, other.as_str(), event.as_str());
            before.push(now).ok().expect(&rt, "room");
        }
        closes(&rt, rt.alloc(), &plain, closing);
        is_made_anew(&rt, rt.alloc(), &keeping);
        goes_back(&rt, rt.alloc(), &mut keeping, &before);
    }
}

// Makes the choices of a script.
fn plays(rt: &(impl Abort + Print), alloc: Global, machine: &mut Machine, script: &str) {
    for word in script.split_whitespace() {
        let now = seen(rt, alloc, machine);
        made(rt, alloc, machine, choice_of(rt, word), now.as_str());
    }
}

// A step that has to wait is refused for that, with memory and without, and changes nothing.
#[test]
fn a_step_waits(rt: HostRuntime) {
    let mut machine = opened(&rt, rt.alloc(), ADDING, 2);
    plays(&rt, rt.alloc(), &mut machine, "1s 1s 2t1 2s 1s");
    let before = seen(&rt, rt.alloc(), &machine);
    assert!(rt; machine.choices() < 1000);
    let made = machine.make(choice_of(&rt, "2s"));
    equal(&rt, made.err(), Some(Refusal::Waiting));
    equal(
        &rt,
        seen(&rt, rt.alloc(), &machine).as_str(),
        before.as_str(),
    );
    plays(&rt, rt.alloc(), &mut machine, "1s 1s 2s");
}

// Takes a worker's step by the value of what is seen of it.
fn settles(rt: &(impl Abort + Print), alloc: Global, machine: &mut Machine, worker: u8) {
    let peek = again!(rt; machine.peek(worker), Refusal::Memory);
    let peek = peek.expect(rt, "an expression");
    let before = seen(rt, alloc, machine);
    assert!(rt; machine.choices() < 1000);
    again!(
        rt;
        machine.settle(worker, &peek, peek.value()),
        Refusal::Memory,
        equal(rt, seen(rt, alloc, machine).as_str(), before.as_str())
    );
}

// Both children read the variable and write it one after the other, by what is seen beforehand.
fn counts_by_values(rt: &(impl Abort + Print), alloc: Global, machine: &mut Machine) {
    plays(rt, alloc, machine, "1s 2t1 2s");
    for worker in [2, 2, 1, 1] {
        settles(rt, alloc, machine, worker);
    }
    plays(rt, alloc, machine, "1s 2s 2p 2s 2s");
    closes(rt, alloc, machine, "main returned 2\n");
}

#[test]
fn steps_are_taken_by_their_values(rt: HostRuntime) {
    let mut plain = opened(&rt, rt.alloc(), COUNTING, 2);
    counts_by_values(&rt, rt.alloc(), &mut plain);
    let mut keeping = opened_with_undo(&rt, rt.alloc(), COUNTING, 2);
    counts_by_values(&rt, rt.alloc(), &mut keeping);
    equal(&rt, keeping.records(), 12);
}
