//! What the workers of a run share.

ghost use Rattle.std.specs.Prelude.{◌≡◌};

use crate::ahead::Ahead;
use crate::post::{Begun, Post, TurnEnd};
use crate::table::{Setting, Table};
use cilk_run_locked::Known;
use std::sync::{Mutex, Wait};

/// The machine with its history under a lock, and beside it what may be evaluated without it.
#[derive(Drop)]
pub struct Shared<J: Setting> {
    pub lock: Mutex<Table<J>>,
    pub ahead: Ahead<J>,
}

impl<J: Setting> Post for Shared<J> {
    #[inline(always)]
    fn turn<R: Wait>(&self, rt: &R, worker: u8, values: &mut Vec<Known>) -> TurnEnd {
        let begun = self
            .lock
            .lock(rt)
            .begin_turn(worker, self.ahead.expressions(), values);
        match begun {
            Begun::Over(turn) => turn,
            Begun::Seen(n) => self.evaluate(rt, worker, n, values.as_slice()),
        }
    }

    fn stop<R: Wait>(&self, rt: &R) {
        self.lock.lock(rt).end_all();
    }
}

impl<J: Setting> Shared<J> {
    // The rest of a turn whose worker saw this of action n, on which its step depends.
    fn evaluate<R: Wait>(&self, rt: &R, worker: u8, n: u32, values: &[Known]) -> TurnEnd {
        match self.ahead.of(n) {
            // No clause says that there is one, so it is asked again.
            None => self.lock.lock(rt).take_turn(worker),
            Some(listed) => {
                let value = listed.value(values);
                self.lock
                    .lock(rt)
                    .end_turn(worker, n, listed, values, value)
            }
        }
    }
}
