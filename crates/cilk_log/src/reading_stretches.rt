//! Reads the choices of version 2: a line for each stretch of them.

ghost use Rattle.std.specs.Prelude.{◌≡◌, map, option_map};
ghost use Rattle.cilk_sched.specs.Words.{choice_of};
ghost use Rattle.cilk_log.specs.Reading.{lines_of, stretch_in, stretches_read};
ghost use Rattle.cilk_log.specs.Words.{stretch_of, ReadsAs};
ghost use Rattle.cilk_log.specs.Stretches.{following};

use crate::choices::Choices;
use crate::fault::LogFault;
use crate::line::{MOST_CHOICES, split_line, stretch_in};
use crate::reading::closing;
use crate::stretch::{Stretch, are_joined};
use cilk_sched::Choice;
use std::alloc::Global;

/// The choices that the lines behind the third tell.
#[inline(never)]
pub(crate) fn read_stretches(alloc: Global, text: &[u8]) -> Result<Choices, LogFault>
    ensures { ReadsAs (λ choices. map choice_of choices) result (stretches_read (lines_of text.now).whole (lines_of text.now).rest) }
{
    let mut choices = Choices::new(alloc);
    let mut rest = text;
    let mut last = None;
    let mut number = 4u64;
    loop {
        match split_line(rest) {
            None => return Err(LogFault::Truncated),
            Some((line, behind)) => {
                let count = choices.len() as u64;
                match stretch_behind(last, line) {
                    None => {
                        return match closing(count, number, line, behind) {
                            Err(fault) => Err(fault),
                            Ok(()) => Ok(choices),
                        };
                    }
                    Some(stretch) => {
                        if stretch.times > MOST_CHOICES - count {
                            return Err(LogFault::TooMany);
                        }
                        match choices.fill(stretch.choice, stretch.times as usize) {
                            Err(_) => return Err(LogFault::Memory),
                            Ok(()) => {}
                        }
                        last = Some(stretch.choice);
                        number += 1;
                        rest = behind;
                    }
                }
            }
        }
    }
}

// What a line tells behind that of a choice, if there is one: no steps of the worker of whose steps that tells.
fn stretch_behind(last: Option<Choice>, line: &[u8]) -> Option<Stretch>
    ensures { option_map stretch_of result ≡ following (option_map choice_of last) (stretch_in line.now) }
{
    match stretch_in(line) {
        None => None,
        Some(stretch) => match last {
            None => Some(stretch),
            Some(choice) => (!are_joined(choice, stretch.choice)).then_some(stretch),
        },
    }
}
