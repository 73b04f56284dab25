//! Where the streak of each access of a run leads past. A streak that is taken for a shorter one costs time alone, so no clause says how long each is.

ghost use Rattle.std.specs.Prelude.{◌≡◌, ◌<◌, true, ℕ, List, length, IfOk};
ghost use Rattle.cilk_races.specs.Line.{Line};
ghost use Rattle.cilk_races.specs.Links.{AreInStreak, AreLinked, ArePast};
ghost use Rattle.cilk_races.specs.Paired.{touch_at, touches_of};
ghost use Rattle.cilk_races.specs.PairWords.{touch_of};

use crate::alike::{are_of_thread, have_same_locks};
use crate::streak::Streak;
use crate::touch::Touch;
use cilk_log_replay::Memory;
use std::alloc::Global;

/// Behind each access the first one of its bucket that is not of its streak, or their number, where the next one of its bucket is given.
pub(crate) fn streaks_of(
    alloc: Global,
    streak: Streak,
    touches: &[Touch],
    next: &[usize],
) -> Result<Vec<usize>, Memory>
    requires next { length next.now ≡ length touches.now }
    ensures size { IfOk result (λ past. length past.items ≡ length touches.now) }
    ensures past { IfOk result (λ past. (rows : List Line) (first : List ℕ)
        → AreLinked (length touches.now) (touches_of rows touches.now) 0 first next.now
        → ArePast streak (length touches.now) (touches_of rows touches.now) 0 past.items) }
{
    let mut past = vec![in alloc; 0; touches.len()]?;
    lead_past(streak, touches, next, past.as_mut_slice());
    Ok(past)
}

// Goes through the accesses from the last one on.
fn lead_past(streak: Streak, touches: &[Touch], next: &[usize], past: &mut [usize])
    requires next { length next.now ≡ length touches.now }
    requires size { length past.old ≡ length touches.now }
    ensures { (rows : List Line) (first : List ℕ) → AreLinked (length touches.now) (touches_of rows touches.now) 0 first next.now
        → ArePast streak (length touches.now) (touches_of rows touches.now) 0 past.new }
{
    let mut place = touches.len();
    while 0 < place {
        place -= 1;
        let behind = next[place];
        past[place] = if goes_on(streak, touches, place, behind) {
            past[behind]
        } else {
            behind
        };
    }
}

// Whether there is one more of the streak.
fn goes_on(streak: Streak, touches: &[Touch], place: usize, behind: usize) -> bool
    requires { place < length touches.now }
    ensures there { result ≡ true → behind < length touches.now }
    ensures alike { result ≡ true → (rows : List Line)
        → AreInStreak streak (touch_at (touches_of rows touches.now) place) (touch_at (touches_of rows touches.now) behind) }
{
    behind < touches.len() && are_in_streak(streak, &touches[place], &touches[behind])
}

/// Whether both are of one.
fn are_in_streak(streak: Streak, a: &Touch, b: &Touch) -> bool
    ensures { result ≡ true → (rows : List Line) → AreInStreak streak (touch_of rows a.now) (touch_of rows b.now) }
{
    match streak {
        Streak::Thread => are_of_thread(a, b),
        Streak::Locks => have_same_locks(a, b),
    }
}
