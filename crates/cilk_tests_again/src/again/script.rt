//! Choices by short words: `1s` is a step of worker 1, `2p` a pop of worker 2, and `2t1` its steal from worker 1.

use cilk_run::{Act, Choice};
use std::process::Abort;

pub fn choice_of(rt: &impl Abort, word: &str) -> Choice {
    if let Some((worker, victim)) = word.split_once('t') {
        let act = Act::Steal(number(rt, victim));
        let worker = number(rt, worker);
        return Choice { worker, act };
    }
    let act = if word.ends_with('p') {
        Act::Pop
    } else {
        Act::Step
    };
    let worker = number(rt, word.trim_end_matches(['s', 'p']));
    Choice { worker, act }
}

fn number(rt: &impl Abort, digits: &str) -> u8 {
    digits.parse::<u8>().expect(rt, "a number")
}
