//! Steps that touch nothing that others see.

ghost use Rattle.std.specs.Prelude.{◌≡◌, None, IfOk};
ghost use Rattle.cilk_machine_undo.specs.labelled.Bodies.{label};
ghost use Rattle.cilk_sched.specs.model.Run.{Standing};
ghost use Rattle.cilk_machine_step.specs.Private.{is_private};
ghost use Rattle.cilk_machine.specs.Stands.{StandsAt};
ghost use Rattle.cilk_machine.specs.Refused.{refused_by};

use super::Machine;
use cilk_machine_step::is_private;
use cilk_sched::{Act, Choice, Memory};

impl Machine {
    /// Whether the worker can step, and its step touches nothing that others see: it assigns, tests, jumps, or leaves a C function or an inlet,
    /// it reads and writes no variable of the top level, does not read `SYNCHED`, is between no two threads of its procedure, and is not trapped.
    pub fn is_private(&self, worker: u8) -> Result<bool, Memory>
        ensures { IfOk result (λ private. (at : Standing) → StandsAt self.now at → private ≡ is_private (label self.now.program) at worker) }
    {
        let choice = Choice {
            worker,
            act: Act::Step,
        };
        match self.refusal(choice) {
            Some(_) => Ok(false),
            None => self.is_private_in_hand(worker),
        }
    }

    // The same of a worker that can step.
    fn is_private_in_hand(&self, worker: u8) -> Result<bool, Memory>
        requires { refused_by self.now (record { worker = worker; act = Act.Step }) ≡ None }
        ensures { IfOk result (λ private. (at : Standing) → StandsAt self.now at → private ≡ is_private (label self.now.program) at worker) }
    {
        match self.parts.hands.hand(worker) {
            None => unreachable!(),
            Some(frame) => is_private(self.alloc, &self.scene(frame)),
        }
    }
}
