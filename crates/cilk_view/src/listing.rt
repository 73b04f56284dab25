//! The view `list`: the canonical text with the numbers of its lines and actions.

ghost use Rattle.std.specs.Prelude.{◌≡◌, ◌+◌, ℕ, decimal, drop, IfOk, OnOk};
ghost use Rattle.std.specs.BTreeMap.{get};
ghost use Rattle.std.specs.Ordering.{nat_cmp};
ghost use Rattle.cilk_load.specs.syntax.Appends.{Appends};
ghost use Rattle.cilk_load.specs.labelled.Lines.{action_lines};
ghost use Rattle.cilk_machine_agree.specs.model.Listing.{right_in_six, blanks, list_text};
ghost use Rattle.cilk_view.specs.Listing.{HasFirsts, numbered_line};

use crate::put::put;
use cilk_load::{Loaded, Memory};
use itoa::Buffer;
use std::alloc::Global;
use std::collections::BTreeMap;

/// Each line of the canonical text behind its number and that of its first action.
pub(crate) fn put_list(alloc: Global, out: &mut String, loaded: &Loaded) -> Result<(), Memory>
    ensures { Appends result out.old out.new (list_text loaded.now) }
{
    let firsts = first_actions(alloc, loaded)?;
    let text = loaded.text()?;
    let mut rest = text.as_str();
    let mut before: usize = 0;
    while let Some((line, others)) = rest.split_once('\n') {
        before += 1;
        put_line(out, &firsts, before, line)?;
        rest = others;
    }
    if rest.is_empty() {
        Ok(())
    } else {
        put_line(out, &firsts, before + 1, rest)
    }
}

// The first action on each line that has one.
fn first_actions(alloc: Global, loaded: &Loaded) -> Result<BTreeMap<usize, usize>, Memory>
    ensures { IfOk result (λ firsts. HasFirsts firsts 1 (action_lines loaded.now)) }
{
    let mut firsts = BTreeMap::new(alloc);
    let count = loaded.count();
    // No action is behind the last one.
    let _none = loaded.line_of(count + 1);
    for passed in 0..count {
        add_action(&mut firsts, loaded, count - passed)?;
    }
    Ok(firsts)
}

// Action n is now the first on its line.
fn add_action(firsts: &mut BTreeMap<usize, usize>, loaded: &Loaded, n: u32) -> Result<(), Memory>
    ensures { OnOk result ((m : ℕ) → n ≡ m + 1 → HasFirsts firsts.old (n + 1) (drop n (action_lines loaded.now))
        → HasFirsts firsts.new (m + 1) (drop m (action_lines loaded.now))) }
{
    match loaded.line_of(n) {
        None => Ok(()),
        Some(line) => {
            firsts.insert(line as usize, n as usize)?;
            Ok(())
        }
    }
}

// A line behind its number k and that of its first action.
fn put_line(
    out: &mut String,
    firsts: &BTreeMap<usize, usize>,
    k: usize,
    line: &str,
) -> Result<(), Memory>
    ensures { Appends result out.old out.new (numbered_line (get nat_cmp firsts.now k) k line.now) }
{
    put_right(out, k)?;
    put(out, " ")?;
    match firsts.get(&k) {
        None => put(out, "      ")?,
        Some(n) => put_right(out, *n)?,
    }
    put(out, "  ")?;
    put(out, line)?;
    put(out, "\n")
}

// A number right in six places.
fn put_right(out: &mut String, n: usize) -> Result<(), Memory>
    ensures { Appends result out.old out.new (right_in_six (decimal n)) }
{
    let mut buffer = Buffer::new();
    let digits = buffer.format(n);
    put_blanks(out, 6usize.saturating_sub(digits.len()))?;
    put(out, digits)
}

fn put_blanks(out: &mut String, count: usize) -> Result<(), Memory>
    ensures { Appends result out.old out.new (blanks count) }
{
    for _ in 0..count {
        put(out, " ")?;
    }
    Ok(())
}
