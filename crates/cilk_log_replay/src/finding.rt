//! Choices at whose action a breakpoint is set.

ghost use Rattle.std.specs.Prelude.{◌≡◌, ◌≤◌, ◌+◌, ◌-◌, length, option_map, IfSome};
ghost use Rattle.std.specs.List.{find, range_with_len};
ghost use Rattle.cilk_log_replay.specs.Breaks.{down_from};
ghost use Rattle.cilk_log_replay.specs.Tracks.{meets};

use crate::stopping::is_set;

/// The number, counted from 1, of the next such choice behind so many.
pub(crate) fn next_met(actions: &[u32], marks: &[bool], from: usize) -> Option<usize>
    requires { from ≤ length actions.now }
    ensures met { result ≡ option_map (λ k. k + 1) (find (meets actions.now marks.now) (range_with_len from (length actions.now - from))) }
    ensures within { IfSome result (λ k. k ≤ length actions.now) }
{
    for made in from..actions.len() {
        if is_set(marks, actions[made]) {
            return Some(made + 1);
        }
    }
    None
}

/// The number, counted from 1, of the last of the first `count` choices that is such.
pub(crate) fn last_met(actions: &[u32], marks: &[bool], count: usize) -> Option<usize>
    requires { count ≤ length actions.now }
    ensures met { result ≡ option_map (λ k. k + 1) (find (meets actions.now marks.now) (down_from count)) }
    ensures within { IfSome result (λ k. k ≤ count) }
{
    let mut left = count;
    while 0 < left {
        left -= 1;
        if is_set(marks, actions[left]) {
            return Some(left + 1);
        }
    }
    None
}
