//! Lines, and what each of them tells.

ghost use Rattle.std.specs.Prelude.{◌≡◌, ◌<◌, [], ◌∷◌, ◌++◌, codes, option_map, length, not, ◌==◌, IfNone, IfSome};
ghost use Rattle.std.specs.Char.{is_ascii_digit};
ghost use Rattle.std.specs.List.{prefix_len};
ghost use Rattle.cilk_sched.specs.Words.{choice_of, act_of};
ghost use Rattle.cilk_log.specs.Reading.{lines_of, workers_in, count_in, steal_in, act_in, choice_in, TellsFirst};
ghost use Rattle.cilk_log.specs.Reading.{times_in, steps_in, stretch_in};
ghost use Rattle.cilk_log.specs.Words.{stretch_of};

use crate::number::{number_in, worker_in};
use crate::stretch::Stretch;
use cilk_sched::{Act, Choice};

/// A text of version 2 tells no more choices.
pub(crate) const MOST_CHOICES: u64 = 10_000_000;

/// The first line without its newline, and what stands behind that newline, if there is one.
pub(crate) fn split_line(text: &[u8]) -> Option<(&[u8], &[u8])>
    ensures cut { IfNone result ((lines_of text.now).whole ≡ []) }
    ensures lines { IfSome result (λ found. (lines_of text.now).whole ≡ found.0.now ∷ (lines_of found.1.now).whole) }
    ensures rest { IfSome result (λ found. (lines_of text.now).rest ≡ (lines_of found.1.now).rest) }
    ensures shorter { IfSome result (λ found. length found.1.now < length text.now) }
{
    let (line, behind) = text.split_at(line_end(text));
    match behind {
        [] => None,
        [_newline, rest @ ..] => Some((line, rest)),
    }
}

/// The choice that the first line tells, and what stands behind it, where that is a step of one of the workers 1 to 9: most
/// lines of most logs are such, and need no search for their newline.
#[tactic(auto, using(crate::proofs::Steps::at_front))]
pub(crate) fn step_in_front(text: &[u8]) -> Option<(Choice, &[u8])>
    ensures { IfSome result (λ found. TellsFirst text.now (choice_of found.0) found.1.now) }
{
    match text {
        [digit @ b'1'..=b'9', rest @ ..] => match behind_step(rest) {
            None => None,
            Some(behind) => {
                let worker = *digit - b'0';
                let act = Act::Step;
                Some((Choice { worker, act }, behind))
            }
        },
        _ => None,
    }
}

// What stands behind the rest of such a line.
fn behind_step(text: &[u8]) -> Option<&[u8]>
    ensures { IfSome result (λ behind. text.now ≡ codes " step\n" ++ behind.now) }
{
    text.strip_prefix(b" step\n")
}

// How many bytes stand before the first newline.
fn line_end(text: &[u8]) -> usize
    ensures { result ≡ prefix_len (λ b. not (b == 10)) text.now }
{
    text.iter().take_while(|byte| **byte != b'\n').count()
}

/// The number of workers that a line tells.
pub(crate) fn workers_in(line: &[u8]) -> Option<u8>
    ensures { result ≡ workers_in line.now }
{
    match line.strip_prefix(b"workers ") {
        None => None,
        Some(number) => worker_in(number),
    }
}

/// The number of choices that a line tells.
pub(crate) fn count_in(line: &[u8]) -> Option<u64>
    ensures { result ≡ count_in line.now }
{
    match line.strip_prefix(b"end ") {
        None => None,
        Some(number) => number_in(number, u64::MAX),
    }
}

/// The choice that a line tells.
pub(crate) fn choice_in(line: &[u8]) -> Option<Choice>
    ensures { option_map choice_of result ≡ choice_in line.now }
{
    let (number, act) = line.split_at(digits_end(line));
    match worker_in(number) {
        None => None,
        Some(worker) => match act_in(act) {
            None => None,
            Some(act) => Some(Choice { worker, act }),
        },
    }
}

/// The choice or the several steps that a line of version 2 tells.
pub(crate) fn stretch_in(line: &[u8]) -> Option<Stretch>
    ensures { option_map stretch_of result ≡ stretch_in line.now }
{
    match choice_in(line) {
        Some(choice) => Some(Stretch { choice, times: 1 }),
        None => steps_in(line),
    }
}

fn steps_in(line: &[u8]) -> Option<Stretch>
    ensures { option_map stretch_of result ≡ steps_in line.now }
{
    let (number, steps) = line.split_at(digits_end(line));
    match worker_in(number) {
        None => None,
        Some(worker) => match times_in(steps) {
            None => None,
            Some(times) => {
                let act = Act::Step;
                Some(Stretch {
                    choice: Choice { worker, act },
                    times,
                })
            }
        },
    }
}

// One step is told without a number.
fn times_in(text: &[u8]) -> Option<u64>
    ensures { result ≡ times_in text.now }
{
    match text.strip_prefix(b" step ") {
        None => None,
        Some(number) => match number_in(number, MOST_CHOICES) {
            None => None,
            Some(times) => (times >= 2).then_some(times),
        },
    }
}

// How many digits stand in front.
fn digits_end(line: &[u8]) -> usize
    ensures { result ≡ prefix_len is_ascii_digit line.now }
{
    line.iter().take_while(|byte| byte.is_ascii_digit()).count()
}

fn act_in(text: &[u8]) -> Option<Act>
    ensures { option_map act_of result ≡ act_in text.now }
{
    match text {
        b" step" => Some(Act::Step),
        b" pop" => Some(Act::Pop),
        _ => steal_in(text),
    }
}

fn steal_in(text: &[u8]) -> Option<Act>
    ensures { option_map act_of result ≡ steal_in text.now }
{
    match text.strip_prefix(b" steal ") {
        None => None,
        Some(victim) => worker_in(victim).map(Act::Steal),
    }
}
