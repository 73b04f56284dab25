//! The line of a log that tells a choice, and a sentence on a choice that is not possible.

ghost use Rattle.std.specs.Prelude.{◌≡◌, ◌≤◌, ◌⊎◌, [], IfOk, length, map, option_map, string_bytes};
ghost use Rattle.cilk_commands.specs.syntax.Appends.{Appends};
ghost use Rattle.cilk_log_replay.specs.log.choices.Words.{act_of, choice_of};
ghost use Rattle.cilk_log_replay.specs.log.Choices.{act_text, choice_text};
ghost use Rattle.cilk_log_replay.specs.log.Stretches.{are_joined, stretches_of};
ghost use Rattle.cilk_log_replay.specs.log.Words.{log_of};
ghost use Rattle.cilk_program_tapes.specs.ChoiceLines.{IsChoiceOf, choice_words, line_of_choice, new_lines, nth_choice};

use crate::meaning::refusal_meaning;
use cilk_log_replay::{Act, Choice, Log, Memory, Refusal};
use std::alloc::Global;

/// What is told of the choice of this number, counted from 1, which is refused so; nothing where the log has none of that number.
pub(crate) fn choice_told(
    alloc: Global,
    log: &Log,
    number: u64,
    why: &Refusal,
) -> Result<String, Memory>
    ensures { IfOk result (λ told. (string_bytes told ≡ [])
        ⊎ IsChoiceOf (log_of log.now) number why.now (string_bytes told)) }
{
    let Some(choice) = nth_choice(log.choices.as_slice(), number) else {
        return Ok(String::new(alloc));
    };
    let line = line_of_choice(log, number as usize);
    let mut told = String::new(alloc);
    put_words(&mut told, number, line, choice, why)?;
    Ok(told)
}

// The choice of this number, counted from 1.
fn nth_choice(choices: &[Choice], number: u64) -> Option<Choice>
    ensures { result ≡ nth_choice choices.now number }
{
    let index = number.checked_sub(1)?;
    choices.get(index as usize).copied()
}

fn put_words(
    told: &mut String,
    number: u64,
    line: u64,
    choice: Choice,
    why: &Refusal,
) -> Result<(), Memory>
    ensures { Appends result told.old told.new (choice_words number line (choice_of choice) why.now) }
{
    write!(told, "Choice {number}, `")?;
    put_choice(told, choice)?;
    let meaning = refusal_meaning(why);
    write!(
        told,
        "` in line {line} of the log, is not possible: {meaning}.\n"
    )?;
    Ok(())
}

fn put_choice(told: &mut String, choice: Choice) -> Result<(), Memory>
    ensures { Appends result told.old told.new (choice_text (choice_of choice)) }
{
    let Choice { worker, act } = choice;
    write!(told, "{worker}")?;
    put_act(told, act)
}

fn put_act(told: &mut String, act: Act) -> Result<(), Memory>
    ensures { Appends result told.old told.new (act_text (act_of act)) }
{
    match act {
        Act::Step => put(told, " step"),
        Act::Pop => put(told, " pop"),
        Act::Steal(victim) => {
            write!(told, " steal {victim}")?;
            Ok(())
        }
    }
}

fn put(told: &mut String, text: &str) -> Result<(), Memory>
    ensures { Appends result told.old told.new text.now }
{
    told.push_str(text)?;
    Ok(())
}

// The number of the line that tells the choice of this number, both counted from 1.
fn line_of_choice(log: &Log, number: usize) -> u64
    requires { number ≤ length log.now.choices }
    ensures { result ≡ line_of_choice (log_of log.now) number }
{
    let (choices, _) = log.choices.as_slice().split_at(number);
    match &log.program {
        None => number as u64 + 2,
        Some(_) => lines_of(choices) + 3,
    }
}

// How many lines of a text of version 2 tell these choices.
fn lines_of(choices: &[Choice]) -> u64
    ensures value { result ≡ length (stretches_of (map choice_of choices.now)) }
    ensures few { result ≤ length choices.now }
{
    let mut count = 0u64;
    let mut last = None;
    for choice in choices {
        count += new_lines(last, *choice);
        last = Some(*choice);
    }
    count
}

// How many lines more tell a choice behind another, if one stands before it: all steps of a worker that stand together have one line.
fn new_lines(last: Option<Choice>, choice: Choice) -> u64
    ensures value { result ≡ new_lines (option_map choice_of last) (choice_of choice) }
    ensures one { result ≤ 1 }
{
    match last {
        Some(last) if are_joined(last, choice) => 0,
        _ => 1,
    }
}

// Whether both are steps of one worker.
fn are_joined(a: Choice, b: Choice) -> bool
    ensures { result ≡ are_joined (choice_of a) (choice_of b) }
{
    matches!(a.act, Act::Step) && matches!(b.act, Act::Step) && a.worker == b.worker
}
