//! Writes the choices of version 2: a line for each stretch of them.

ghost use Rattle.std.specs.Prelude.{◌≡◌, ◌<◌, [], ◌∷◌, ◌++◌, IfNone, IfSome, OnOk, flat_map, length, map};
ghost use Rattle.std.specs.List.{prefix_len};
ghost use Rattle.cilk_sched.specs.Words.{choice_of};
ghost use Rattle.cilk_log.specs.Stretches.{are_joined, stretch_text, stretches_of};
ghost use Rattle.cilk_log.specs.Text.{with_newline};
ghost use Rattle.cilk_log.specs.Words.{stretch_of};

use crate::stretch::{Stretch, are_joined};
use crate::writing::{put, put_act, put_choice, put_number};
use cilk_sched::{Choice, Memory};

/// Writes the lines of these choices, behind what stands there.
pub(crate) fn put_stretches(text: &mut Vec<u8>, choices: &[Choice]) -> Result<(), Memory>
    ensures { OnOk result
        (text.new.items ≡ text.old.items ++ flat_map with_newline (map stretch_text (stretches_of (map choice_of choices.now)))) }
{
    let mut rest = choices;
    while let Some((stretch, behind)) = first_stretch(rest) {
        put_stretch(text, stretch)?;
        rest = behind;
    }
    Ok(())
}

// What the first line tells, and the choices behind that.
fn first_stretch(choices: &[Choice]) -> Option<(Stretch, &[Choice])>
    ensures none { IfNone result (choices.now ≡ []) }
    ensures first { IfSome result (λ found. stretches_of (map choice_of choices.now)
        ≡ stretch_of found.0 ∷ stretches_of (map choice_of found.1.now)) }
    ensures shorter { IfSome result (λ found. length found.1.now < length choices.now) }
{
    match choices.split_first() {
        None => None,
        Some((first, behind)) => {
            let joined = joined_in_front(*first, behind);
            let (_, rest) = behind.split_at(joined);
            let choice = *first;
            let times = joined as u64 + 1;
            Some((Stretch { choice, times }, rest))
        }
    }
}

// How many of these stand in front of which the line of the choice before them tells.
fn joined_in_front(first: Choice, behind: &[Choice]) -> usize
    ensures { result ≡ prefix_len (λ choice. are_joined (choice_of first) (choice_of choice)) behind.now }
{
    behind
        .iter()
        .take_while(|choice| are_joined(first, **choice))
        .count()
}

fn put_stretch(text: &mut Vec<u8>, stretch: Stretch) -> Result<(), Memory>
    ensures { OnOk result (text.new.items ≡ text.old.items ++ with_newline (stretch_text (stretch_of stretch))) }
{
    let Stretch { choice, times } = stretch;
    if times == 1 {
        return put_choice(text, choice);
    }
    put_number(text, u64::from(choice.worker))?;
    put_act(text, choice.act)?;
    put(text, b" ")?;
    put_number(text, times)?;
    text.push(b'\n')?;
    Ok(())
}
