//! What a machine was between two choices, without what a later machine tells as well.

ghost use Rattle.std.specs.Prelude.{◌≡◌, IfOk};

use cilk_machine_undo::{Id, Moment};
use cilk_sched::{Memory, Outcome};
use std::alloc::Global;
use std::marker::Model;

/// What a machine was between two choices, from which a machine of the same program is put there again. What had ended then and what
/// was printed takes no memory here: a later machine tells both.
#[derive(Drop)]
pub struct Checkpoint {
    pub(crate) moment: Moment,
    pub(crate) outcome: Outcome,
    /// The instance that was trapped, which contracts alone read.
    pub(crate) trapper: Id,
    pub(crate) choices: u64,
}

impl Model for Checkpoint {
    ghost use Rattle.cilk_machine.specs.Checkpoints as seen;

    ghost Value = { seen.Checkpoint };

    ghost view = { λ k. record { moment = k.moment; outcome = k.outcome; trapper = k.trapper; choices = k.choices } };
}

impl Checkpoint {
    /// How many choices had been made.
    pub fn choices(&self) -> u64
        ensures { result ≡ self.now.choices }
    {
        self.choices
    }
}

/// The same outcome once more.
pub(crate) fn outcome_copy(alloc: Global, outcome: &Outcome) -> Result<Outcome, Memory>
    ensures { IfOk result (λ o. o ≡ outcome.now) }
{
    match outcome {
        Outcome::Running => Ok(Outcome::Running),
        Outcome::Finished(value) => Ok(Outcome::Finished(*value)),
        Outcome::Trapped { kind, path, n } => match path.copy(alloc) {
            Err(memory) => Err(memory),
            Ok(path) => Ok(Outcome::Trapped {
                kind: *kind,
                path,
                n: *n,
            }),
        },
    }
}
