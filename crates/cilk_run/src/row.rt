//! A row of a tally.

ghost use Rattle.std.specs.Prelude.{◌≡◌, ◌<◌, ◌-◌, ◌^◌};
ghost use Rattle.cilk_run.specs.Tallied.{bumped, same_outcome};
ghost use Rattle.cilk_run.specs.Tallying.{outcome_by, row_by};

use crate::outcome::Outcome;

/// An outcome, how many runs have it, and the seed of the first of them.
#[derive(Drop)]
pub(crate) struct Row {
    pub outcome: Outcome,
    pub count: u32,
    pub first: u64,
}

impl Row {
    /// Counts one run more if that has the outcome of the row, and tells whether it has.
    pub(crate) fn count_if_same(&mut self, outcome: &Outcome) -> bool
        requires { self.old.count < 2 ^ 32 - 1 }
        ensures row { row_by self.new ≡ bumped (outcome_by outcome.now) (row_by self.old) }
        ensures same { result ≡ same_outcome (outcome_by self.old.outcome) (outcome_by outcome.now) }
    {
        if !is_same(&self.outcome, outcome) {
            return false;
        }
        self.count += 1;
        true
    }
}

fn is_same(one: &Outcome, other: &Outcome) -> bool
    ensures { result ≡ same_outcome (outcome_by one.now) (outcome_by other.now) }
{
    one.printed.as_slice() == other.printed.as_slice() && one.ended.as_str() == other.ended.as_str()
}
