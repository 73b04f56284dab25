//! Whole images of a machine, and machines that are made of them.

ghost use Rattle.std.specs.Prelude.{◌≡◌, true, IfOk};
ghost use Rattle.cilk_machine.specs.Checkpoints.{IsImageOf, WasImage, without_past};
ghost use Rattle.cilk_machine.specs.Situation.{Situation};

use super::Machine;
use crate::checkpoint::outcome_copy;
use crate::keeping::no_records;
use crate::machine_image::MachineImage;
use cilk_machine_step::Loaded;
use cilk_machine_undo::PartsImage;
use cilk_sched::Memory;
use std::alloc::Global;

impl Machine {
    /// What it is now, as plain data.
    pub fn image(&self) -> Result<MachineImage, Memory>
        ensures { IfOk result (λ k. IsImageOf k self.now) }
    {
        let parts = PartsImage::of(&self.parts)?;
        let outcome = outcome_copy(self.alloc, &self.outcome)?;
        Ok(MachineImage {
            parts,
            workers: self.workers,
            outcome,
            trapper: self.trapper,
            choices: self.choices,
        })
    }

    /// A machine as that was, of the same program. It has no records, and keeps one of each choice from then on.
    pub fn restore(alloc: Global, image: &MachineImage, loaded: Loaded) -> Result<Machine, Memory>
        requires { WasImage image.now loaded }
        ensures { IfOk result (λ n. (m : Situation) → IsImageOf image.now m → m.program ≡ loaded → n ≡ without_past true m) }
    {
        let outcome = match outcome_copy(alloc, &image.outcome) {
            Ok(outcome) => outcome,
            Err(memory) => {
                drop(loaded);
                return Err(memory);
            }
        };
        let records = match no_records(alloc, true) {
            Ok(records) => records,
            Err(memory) => {
                drop(outcome);
                drop(loaded);
                return Err(memory);
            }
        };
        match image.parts.parts() {
            Err(memory) => {
                drop(records);
                drop(outcome);
                drop(loaded);
                Err(memory)
            }
            Ok(parts) => Ok(Machine {
                alloc,
                loaded,
                parts,
                workers: image.workers,
                outcome,
                trapper: image.trapper,
                choices: image.choices,
                keeps: true,
                records,
            }),
        }
    }
}
