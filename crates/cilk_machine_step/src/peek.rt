//! An expression that the next step evaluates, with all that its value needs apart from the machine.

ghost use Rattle.std.specs.Prelude.{◌≡◌};
ghost use Rattle.cilk_machine_plan.specs.eval.Known.{known};
ghost use Rattle.cilk_load.specs.labelled.Value.{value_of};

use cilk_load::{Code, Trap};
use cilk_machine_plan::{Known, Path, eval_known};

/// What the next step of an instance evaluates, and all that its value depends on.
#[derive(Drop)]
pub struct Peek {
    /// The instance.
    pub path: Path,
    /// The number of the action.
    pub n: u32,
    /// The right side of an assignment, or a test.
    pub code: Code,
    /// What the variables held that stand in the expression, from the left, evaluated or not.
    pub values: Vec<Known>,
}

impl Peek {
    /// The value of the expression, or the first trap from the left, where the variables hold what they held.
    pub fn value(&self) -> Result<i32, Trap>
        ensures { result ≡ value_of (known self.now.values.items) self.now.code }
    {
        eval_known(self.values.as_slice(), &self.code)
    }
}
