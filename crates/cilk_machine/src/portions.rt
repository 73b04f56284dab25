//! What is seen of a program that runs, told in portions.

ghost use Rattle.std.specs.Prelude.{◌≡◌, Some, None, Err, List, IfOk};
ghost use Rattle.cilk_sched.specs.model.Choice.{Choice};
ghost use Rattle.cilk_sched.specs.model.Event.{Event};
ghost use Rattle.cilk_sched.specs.model.Run.{Standing};
ghost use Rattle.cilk_sched.specs.model.Views.{shown};
ghost use Rattle.cilk_machine_undo.specs.frame.Asked.{what_of};
ghost use Rattle.cilk_machine.specs.Stands.{Led};

use crate::machine::Machine;
use cilk_view::{Telling, ViewFault, What, tell};

impl Machine {
    /// The same text as that of `text`, told in portions. Those of `tree` and `deques` take memory by the number of instances ever made, and not
    /// by the length of their paths.
    pub fn view_told(&self, what: &What) -> Result<Telling, ViewFault>
        ensures text { IfOk result (λ told. (choices : List Choice) (events : List Event) (at : Standing) → Led self.now choices events at
            → shown self.now.program (record { standing = at; events = events }) (what_of what.now) ≡ Some told) }
        ensures fault { result ≡ Err ViewFault.NoInstance → (choices : List Choice) (events : List Event) (at : Standing) → Led self.now choices events at
            → shown self.now.program (record { standing = at; events = events }) (what_of what.now) ≡ None }
        ensures none { (choices : List Choice) (events : List Event) (at : Standing) → Led self.now choices events at
            → shown self.now.program (record { standing = at; events = events }) (what_of what.now) ≡ None → result ≡ Err ViewFault.NoInstance }
    {
        // Brings its clauses into the proof.
        let _choices = self.choices();
        let parts = self.shown();
        tell(self.allocator(), &parts, what)
    }
}
