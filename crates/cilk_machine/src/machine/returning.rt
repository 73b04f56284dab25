//! Small images of a machine between two choices, and the way back there.

ghost use Rattle.std.specs.Prelude.{◌≡◌, IfOk, OnErr, OnOk};
ghost use Rattle.cilk_machine.specs.Checkpoints.{IsCheckpointOf, IsEarlier, WasThere, without_past};
ghost use Rattle.cilk_machine.specs.Situation.{Situation};

use super::Machine;
use crate::checkpoint::{Checkpoint, outcome_copy};
use crate::keeping::make_room;
use cilk_machine_undo::Moment;
use cilk_sched::Memory;
use std::mem::replace;

impl Machine {
    /// What it is now, without what later machines tell.
    pub fn checkpoint(&self) -> Result<Checkpoint, Memory>
        ensures { IfOk result (λ k. IsCheckpointOf k self.now) }
    {
        let moment = Moment::of(&self.parts)?;
        let outcome = outcome_copy(self.alloc, &self.outcome)?;
        Ok(Checkpoint {
            moment,
            outcome,
            trapper: self.trapper,
            choices: self.choices,
        })
    }

    /// Stands where the checkpoint was made, of a machine of the same program, where a later one tells what had ended then and what was
    /// printed. There are no records then, and they go on being kept, if they were. Where memory has run out, nothing has changed.
    pub fn return_to(&mut self, checkpoint: &Checkpoint, later: &Machine) -> Result<(), Memory>
        requires { WasThere checkpoint.now self.old.program later.now }
        ensures back { OnOk result ((m : Situation) → IsCheckpointOf checkpoint.now m → IsEarlier m later.now → m.program ≡ self.old.program
            → self.new ≡ without_past self.old.keeps m) }
        ensures same { OnErr result (self.new ≡ self.old) }
    {
        match make_room(self.keeps, &mut self.records) {
            Err(memory) => Err(memory),
            Ok(()) => match outcome_copy(self.alloc, &checkpoint.outcome) {
                Err(memory) => Err(memory),
                Ok(outcome) => match checkpoint.moment.parts(&later.parts, checkpoint.choices) {
                    Err(memory) => {
                        drop(outcome);
                        Err(memory)
                    }
                    Ok(parts) => {
                        self.records.clear();
                        drop(replace(&mut self.parts, parts));
                        drop(replace(&mut self.outcome, outcome));
                        self.workers = later.workers;
                        self.trapper = checkpoint.trapper;
                        self.choices = checkpoint.choices;
                        Ok(())
                    }
                },
            },
        }
    }
}
